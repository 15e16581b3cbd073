// What the program judges says of a login record: the judgement, and its line of text.
#![tactic(auto)]

ghost use Rattle.std.specs.Prelude.{◌≡◌, ◌≤◌, ◌<◌, [], length};
ghost use Rattle.params.specs.Words.{reason_of};
ghost use Rattle.judging.specs.Judgement.{judgement_of, line_of};
ghost use Rattle.judging.specs.Text.{text_of, hex_digit, reject_text, short_text};

use params::{Fault, Params, Reason};
use saying::{Line, push_decimal, put};
use wire::byte_at;

// kept: an enum and no Result, since each of the four is a line that is said, and no function goes on by one of them alone
#[derive(Clone, Copy)]
pub enum Judgement {
    Accept,
    Reject(Fault),
    NotPlogi,
    Short(usize),
}

// The judgement of a login record against an empty drive; of fewer than 116 bytes, how many there are.
#[tactic(auto, unfolding(crate::specs::Judgement::judgement_of))]
pub fn judge(login: &[u8]) -> Judgement
    ensures { result ≡ judgement_of login.now }
{
    let n = login.len();
    if n < 116 {
        return Judgement::Short(n);
    }
    // kept: the code of PLOGI as document 01 writes it, since no other service is told apart here
    if byte_at(login, 0) != 0x03 {
        return Judgement::NotPlogi;
    }
    match Params::read(login, 4).verdict() {
        Ok(()) => Judgement::Accept,
        Err(f) => Judgement::Reject(f),
    }
}

// The line for a record: its number, and what is said of it.
#[tactic(auto, unfolding(crate::specs::Judgement::line_of))]
pub fn line_for(number: u64, j: Judgement) -> Line
    ensures { result ≡ line_of number j }
{
    let mut line = Line::new();
    push_decimal(&mut line, number);
    put(&mut line, text_of(j).as_bytes());
    line
}

// What is said of a judgement.
// kept: put together by hand and not by Display, for the reason at hex_digit
fn text_of(j: Judgement) -> Line
    ensures text { result ≡ text_of j }
    ensures short { length result ≤ 28 }
{
    let mut text = Line::new();
    match j {
        Judgement::Accept => put(&mut text, b" ACC\n"),
        Judgement::Reject(f) => put(&mut text, &reject_text(f)),
        Judgement::NotPlogi => put(&mut text, b" NOT PLOGI\n"),
        Judgement::Short(n) => put_short(&mut text, n),
    }
    text
}

// " LS_RJT ", reason and explanation.
#[tactic(auto, unfolding(crate::specs::Text::reject_text))]
fn reject_text(f: Fault) -> [u8; 14]
    ensures { result ≡ reject_text (reason_of f).reason (reason_of f).explanation }
{
    let w = Reason::from(f);
    let r = w.reason;
    let e = w.explanation;
    [
        b' ',
        b'L',
        b'S',
        b'_',
        b'R',
        b'J',
        b'T',
        b' ',
        hex_digit(r / 16),
        hex_digit(r % 16),
        b' ',
        hex_digit(e / 16),
        hex_digit(e % 16),
        b'\n',
    ]
}

// How many bytes a cut end has.
#[tactic(auto, unfolding(crate::specs::Text::short_text))]
fn put_short(text: &mut Line, n: usize)
    requires { text.old ≡ [] }
    ensures short { text.new ≡ short_text n }
    ensures len { length text.new ≤ 28 }
{
    put(text, b" SHORT ");
    push_decimal(text, n as u64);
    put(text, b"\n");
}

// A digit below 16 in upper case.
// kept: `{:02X}` is by `write!`, which promises its text where it answers Ok alone, and a line can't fail
#[tactic(auto, unfolding(crate::specs::Text::hex_digit))]
fn hex_digit(d: u8) -> u8
    requires { d < 16 }
    ensures { result ≡ hex_digit d }
{
    if d < 10 { b'0' + d } else { b'A' - 10 + d }
}
