// Records from a reader, which the programs take to be standard input: a letter, a length of four bytes, big-endian, and a body of that length.
#![tactic(auto)]

ghost use Rattle.std.specs.Prelude.{◌≡◌, ◌≤◌, ◌<◌, length, take, IfOk, IfErr};
ghost use Rattle.std.specs.Io.KnownBytes.{Consumes, IsAtEnd};
ghost use Rattle.io.specs.Counts.{IsPrefixLen};

use saying::End;
use std::io::Read;

// A record: its letter, and how many bytes its body has, which stands at the front of the lent buffer.
// kept: a length and no slice of the buffer, so that a record is Copy
#[derive(Clone, Copy)]
pub struct Record {
    pub letter: u8,
    pub len: usize,
}

// A read failed: how many bytes had come before it, which stand at the front of the lent buffer.
#[derive(Clone, Copy)]
pub struct Failed {
    pub len: usize,
}

// Where a read failed the input cannot be read.
impl From<Failed> for End {
    ghost use Rattle.std.specs.Prelude.{◌≡◌};
    ghost use Rattle.saying.specs.declared.End.TheVariants.{Unread};

    ghost from_gives = { λ _ e. e ≡ Unread };

    fn from(_: Failed) -> End {
        End::Unread
    }
}

// Fills the lent buffer from the input, as far as that goes; answers how many bytes came. A read that a signal interrupts has failed.
#[tactic(auto, using(crate::proofs::Filled::read_more))]
pub fn fill<R: Read>(input: &mut R, buf: &mut [u8]) -> Result<usize, Failed>
    ensures prefix_len { IfOk result (λ n. IsPrefixLen n buf.new) }
    ensures bytes { IfOk result (λ n. Consumes (R.remaining input.old) (R.remaining input.new) (take n buf.new)) }
    ensures end { IfOk result (λ n. n < length buf.new → IsAtEnd (R.remaining input.new)) }
    ensures before { IfErr result (λ e. IsPrefixLen e.len buf.new) }
    ensures short { IfErr result (λ e. e.len < length buf.new) }
{
    let room = buf.len();
    let mut done = 0;
    // kept: how far a read goes is the reader's to say; std's read_exact does not tell it, and tries an interrupted read again
    while done < room {
        let Ok(n) = input.read(&mut buf[done..]) else {
            return Err(Failed { len: done });
        };
        if n == 0 {
            return Ok(done);
        }
        done += n;
    }
    Ok(done)
}

// Fills the whole of the lent buffer, which is a part of a record that was begun.
fn fill_whole<R: Read>(input: &mut R, buf: &mut [u8]) -> Result<(), End> {
    if fill(input, buf)? < buf.len() {
        return Err(End::Cut);
    }
    Ok(())
}

// Takes the next record, and puts its body at the front of the lent buffer. A body that is longer is passed over, and letter 0 stands for its record.
// Where there is none, the input is over or cut, or cannot be read.
// kept: letter 0 for a record that is passed over, since the programs answer it as any letter that is no call
pub fn next<R: Read>(input: &mut R, body: &mut [u8]) -> Result<Record, End>
    ensures { IfOk result (λ r. IsPrefixLen r.len body.new) }
{
    let mut head = [0u8; 5];
    match fill(input, &mut head)? {
        0 => Err(End::Over),
        5 => headed(input, head, body),
        _ => Err(End::Cut),
    }
}

// The record of a head, its letter and the length of its body.
fn headed<R: Read>(input: &mut R, head: [u8; 5], body: &mut [u8]) -> Result<Record, End>
    ensures { IfOk result (λ r. IsPrefixLen r.len body.new) }
{
    let [letter, a, b, c, d] = head;
    let size = u32::from_be_bytes([a, b, c, d]) as usize;
    if size > body.len() {
        return passed(input, size);
    }
    fill_whole(input, &mut body[..size])?;
    Ok(Record { letter, len: size })
}

// Passes over a body of this many bytes; its record has none.
fn passed<R: Read>(input: &mut R, size: usize) -> Result<Record, End>
    ensures { IfOk result (λ r. r.len ≡ 0) }
{
    skip(input, size)?;
    Ok(Record { letter: 0, len: 0 })
}

// Reads this many bytes and drops them.
fn skip<R: Read>(input: &mut R, size: usize) -> Result<(), End> {
    let mut bytes = io::buffer();
    for _ in 0..size / 4096 {
        fill_whole(input, &mut bytes)?;
    }
    fill_whole(input, &mut bytes[..size % 4096])
}
