// Lines of text that the programs write: a record's number in decimal, and what a program says where it ends.
#![tactic(auto)]

ghost use Rattle.std.specs.Prelude.{◌≡◌, ◌+◌, ◌≤◌, [], ◌++◌, length, take};
ghost use Rattle.wire.specs.Bytes.{Wrote};
ghost use Rattle.saying.specs.Text.{decimal};
ghost use Rattle.saying.specs.Ends.{name_text, why_text, end_text};

use std::marker::Model;
use wire::{put_at, put_front};

#[cfg(test)]
mod tests;

// A text of at most N bytes: they stand at the front, zeros after them. A contract sees them, as a list.
// kept: no ArrayVec of the library arrayvec, which is not Copy
#[derive(Clone, Copy)]
pub struct Text<const N: usize> {
    bytes: [u8; N],
    len: usize,
}

impl<const N: usize> Model for Text<N> {
    ghost use Rattle.std.specs.Prelude.{◌≡◌, ℕ, ◌≤◌, List, length, take, replicate};
    ghost use Rattle.std.proofs.Common.{length-take-le};
    ghost use Rattle.wire.specs.Bytes.{onto};

    ghost Value = { List ℕ };

    ghost view = { λ t. take t.len t.bytes };

    ghost invariant = { λ t. (t.len ≤ length t.bytes) × (onto (take t.len t.bytes) (replicate N 0) ≡ t.bytes) };

    ghost inverse = { λ text. record { bytes = onto text (replicate N 0); len = length text } };

    ghost inverse_ok = { λ t h i. record { bytes = h.1 i; len = length-take-le t.len t.bytes h.0 i } };
}

impl<const N: usize> Text<N> {
    // A text of no byte.
    #[tactic(auto, using(wire::proofs::Fronts::onto_nil))]
    pub fn new() -> Self
        ensures { result ≡ [] }
    {
        Text {
            bytes: [0; N],
            len: 0,
        }
    }

    // How many bytes it has, at most as many as it has room for.
    pub const fn len(&self) -> usize
        ensures value { result ≡ length self.now }
        ensures fits { result ≤ N }
    {
        self.len
    }

    // Its bytes, without the zeros after them.
    pub fn as_bytes(&self) -> &[u8]
        ensures value { result.now ≡ self.now }
        ensures fits { length result.now ≤ N }
    {
        &self.bytes[..self.len]
    }
}

// A line of text.
pub type Line = Text<96>;

// Why a program ends at a record: the input was over before it, it is cut, it could not be read, or what is said of it could not be written.
#[derive(Clone, Copy)]
pub enum End {
    Over,
    Cut,
    Unread,
    Unwritten,
}

// Puts a text at the end of a line, as much of it as fits. The second clause follows from the first, and spares a caller whose text fits a proof file.
#[tactic(auto, using(crate::proofs::Texts::put_within, crate::proofs::Texts::put_zeros, crate::proofs::Texts::put_items, crate::proofs::Texts::put_whole))]
pub fn put<const N: usize>(line: &mut Text<N>, text: &[u8])
    ensures items { line.new ≡ take N (line.old ++ text.now) }
    ensures whole { length line.old + length text.now ≤ N → line.new ≡ line.old ++ text.now }
{
    let at = line.len;
    let n = text.len().min(N - at);
    put_at(&mut line.bytes, at, &text[..n]);
    line.len = at + n;
}

// A number in decimal at the front of out; answers how many digits it has.
// kept: the digits by the library's `io::decimal`: std's `write!` promises its text where it answers Ok, and no clause of it says that it does
pub fn put_decimal(n: u64, out: &mut [u8]) -> usize
    ensures { Wrote (decimal n) out.old out.new result 20 }
{
    let mut digits = [0u8; 20];
    let k = io::decimal(n, &mut digits);
    put_front(out, &digits[..k]);
    k
}

// Puts a number in decimal at the end of a line, as much of it as fits.
#[tactic(auto, using(crate::proofs::Decimal::digits_taken, crate::proofs::Decimal::digits_few))]
pub fn push_decimal<const N: usize>(line: &mut Text<N>, n: u64)
    ensures items { line.new ≡ take N (line.old ++ decimal n) }
    ensures whole { length line.old + length (decimal n) ≤ N → line.new ≡ line.old ++ decimal n }
    ensures digits { length (decimal n) ≤ 20 }
{
    let mut digits = [0u8; 20];
    let k = put_decimal(n, &mut digits);
    put(line, &digits[..k]);
}

// The line that a program of this name says on standard error where it ends at a record; an empty one where its input is over.
// kept: a line is put together by hand, here and below, and not by Display, for the reason at put_decimal
pub fn end_line(name: &[u8], number: u64, end: End) -> Line
    ensures { result ≡ end_text name.now number end }
{
    match end {
        End::Over => Line::new(),
        End::Cut => why_line(name, number, b": cut by the end of the input\n"),
        End::Unread => why_line(name, number, b": standard input cannot be read\n"),
        End::Unwritten => why_line(name, number, b": standard output cannot be written\n"),
    }
}

// The name, the record's number and the reason.
// kept: name, number and reason side by side, since each is put once and a struct of them would be made for one call
#[tactic(auto, unfolding(crate::specs::Ends::why_text))]
fn why_line(name: &[u8], number: u64, why: &[u8]) -> Line
    requires { length why.now ≤ 36 }
    ensures { result ≡ why_text name.now number why.now }
{
    let mut line = named(name);
    push_decimal(&mut line, number);
    put(&mut line, why);
    line
}

// The name, at most 16 bytes of it, and the word before the number.
fn named(name: &[u8]) -> Line
    ensures text { result ≡ name_text name.now }
    ensures short { length result ≤ 25 }
{
    let mut line = Line::new();
    put(&mut line, &name[..16usize.min(name.len())]);
    put(&mut line, b": record ");
    line
}
