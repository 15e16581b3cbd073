// The bytes of an answer.
ghost use Rattle.std.specs.Prelude.{◌≡◌, ◌≤◌, ◌∷◌, length};
ghost use Rattle.wire.specs.Bytes.{bytes};
ghost use Rattle.recording.specs.Answers.{all_fill, answer, answer_of};

use crate::{FILL, Line};
use refusal::Refusal;
use saying::put;
use wire::BigEndian;

// The answer's bytes, from what was said and the lent buffer after it.
pub(crate) fn line_of(said: Result<usize, Refusal>, lent: &[u8]) -> Line
    requires { length lent.now ≤ 4096 }
    ensures { result ≡ answer_of said lent.now }
{
    match said {
        Ok(n) => {
            let k = n.min(lent.len());
            written(0, &lent[..k], untouched(&lent[k..]))
        }
        Err(x) => written(x.number(), &[], untouched(lent)),
    }
}

// The number, the reply's length, the reply, and whether the rest was untouched.
#[tactic(auto, unfolding(crate::specs::Answers::answer))]
pub(crate) fn written(number: u8, reply: &[u8], still: bool) -> Line
    requires { length reply.now ≤ 4096 }
    ensures { result ≡ answer number reply.now still }
{
    let mut line = Line::new();
    put(&mut line, &head(number, reply.len()));
    put(&mut line, reply);
    put(&mut line, &[u8::from(still)]);
    line
}

// What stands before a reply of n bytes.
fn head(number: u8, n: usize) -> [u8; 3]
    requires { n ≤ 4096 }
    ensures { result ≡ number ∷ bytes 2 n }
{
    let [high, low]: [u8; 2] = u16::bytes(n as u16);
    [number, high, low]
}

// Whether every byte holds the fill.
#[tactic(auto, unfolding(crate::specs::Answers::all_fill))]
fn untouched(lent: &[u8]) -> bool
    ensures { result ≡ all_fill lent.now }
{
    lent.iter().all(|b| *b == FILL)
}
