// The drive on a pipe: takes calls from standard input and writes an answer for each to standard output.
// A record is a letter, a length of four bytes and a body of that length; numbers are big-endian:
//   S  makes a drive: capacity (8 bytes), own address (4), identity (28), accept words (112), 1 where hosts may write, else 0 (1)
//   F  a frame in: room of the reply buffer (2, at most 4,096), the frame
//   D  a frame in, with a window: room (2), starting block of the window (8), length of the frame (2), the frame, the window
//   N  the next frame out: address (4), OX_ID (2), room (2), starting block of the window (8), the window
//   E  an event: 1 loop reset, 2 verification time over, 3 power on (1 byte)
// An answer is the refusal's number (1 byte, 0 where it was answered), the reply's length (2 bytes), the reply, and one byte:
// 1 where every byte of the lent buffer after the reply (after a refusal every byte) still holds the 5Ah it was lent with, else 0.
// After that of a D stand all bytes of its window as they are after the call, after a refusal too.
// What is no call is answered with 255. A record that is cut has no answer and ends the program.
// Where it cannot go on it says so on standard error, with the record's number.
#![tactic(auto)]

use recording::{Session, rest_of, start, tell};
use saying::{End, end_line};
use std::io::{Read, Write};

// Answers the next record, and brings the session to after it. One buffer takes the body of each record in turn.
fn answer_next(
    input: &mut impl Read,
    output: &mut impl Write,
    s: &mut Session,
    buffer: &mut [u8],
) -> Result<(), End> {
    let r = records::next(input, buffer)?;
    let body = &mut buffer[..r.len];
    let from = rest_of(*s, r.letter, body);
    let t = tell(*s, r.letter, body);
    say(output, t.line.as_bytes(), &body[from..]).map_err(|_| End::Unwritten)?;
    *s = t.session;
    Ok(())
}

// Writes the answer and what follows it at once.
fn say(output: &mut impl Write, answer: &[u8], rest: &[u8]) -> std::io::Result<()> {
    output.write_all(answer)?;
    output.write_all(rest)
}

// A proved loop has to end and the input need not, so the records are counted up to a number that no run reaches.
fn main(rt: HostRuntime) {
    let mut input = rt.stdin();
    let mut output = rt.stdout();
    let mut errors = rt.stderr();
    let mut s = start();
    let mut buffer = [0u8; 70000];
    for number in 1..=u64::MAX {
        if let Err(end) = answer_next(&mut input, &mut output, &mut s, &mut buffer) {
            let _ = errors.write_all(end_line(b"recorder", number, end).as_bytes());
            return;
        }
    }
}
