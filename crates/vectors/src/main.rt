// Runs a drive over records from standard input and writes a line for each: its name, what was answered, and what the table of logins then holds.
// A record is one of recorder's (S, F, D, N, E), or one of these; numbers are big-endian:
//   n  the name of the next line, written as it is
//   k  many next frames out, of which none is shown: the body of N up to the window, and how many (4 bytes); the window has 65,520 bytes of no meaning
//   l  shows all that the login at a place (1 byte) keeps, but for its exchanges
//   e  shows the eight places for exchanges of the login at a place (1 byte)
// What a call answers is the reply in hexadecimal, - for nothing to send, or refused and the number, which for what is no call is 255.
// After that of a D its window stands in hexadecimal as it is after the call.
// Where it cannot go on it says so on standard error, with the record's number.
#![tactic(auto)]

mod shown;

use recording::{Session, rest_of, start, tell};
use saying::{End, end_line};
use shown::{Answered, Head, Hex, Kept, Open, Whole, show};
use state::{Login, Port, login_at};
use std::io::{Read, Write};
use wire::{BigEndian, byte_at, put_front};

// Does what the next record says, and brings the session to after it. One buffer takes the body of each record in turn.
fn take_next(
    input: &mut impl Read,
    output: &mut impl Write,
    s: &mut Session,
    buffer: &mut [u8],
) -> Result<(), End> {
    let r = records::next(input, buffer)?;
    taken(output, s, r.letter, &mut buffer[..r.len]).map_err(|_| End::Unwritten)
}

// Whether the end of its line was written: where the output does not take a part of a line, that part is lost, and the line goes on.
fn taken(
    output: &mut impl Write,
    s: &mut Session,
    letter: u8,
    body: &mut [u8],
) -> std::io::Result<()> {
    match letter {
        b'n' => {
            let _ = output.write_all(body);
            Ok(())
        }
        b'k' => {
            pass(s, body);
            Ok(())
        }
        b'l' => {
            show(output, Kept(named(s, body)));
            output.write_all(b"\n")
        }
        b'e' => {
            show(output, Head(named(s, body)));
            show(output, Whole(named(s, body)));
            output.write_all(b"\n")
        }
        _ => answer(output, s, letter, body),
    }
}

// The login at the place that a record names.
fn named(s: &Session, body: &[u8]) -> Login {
    login_at(s.drive.port, byte_at(body, 0) as usize)
}

// Many next frames, each from a window that goes on to the end of a large buffer.
fn pass(s: &mut Session, body: &[u8]) {
    let mut asking = io::large_buffer();
    put_front(&mut asking, body);
    for _ in 0..u32::read(body, 16) {
        *s = tell(*s, b'N', &mut asking).session;
    }
}

// Shows what a call answered, the bytes of its body that follow the answer, and the table after it.
fn answer(
    output: &mut impl Write,
    s: &mut Session,
    letter: u8,
    body: &mut [u8],
) -> std::io::Result<()> {
    let from = rest_of(*s, letter, body);
    let t = tell(*s, letter, body);
    *s = t.session;
    show(output, Answered(t.line.as_bytes()));
    if from < body.len() {
        show(output, " ");
        show(output, Hex(&body[from..]));
    }
    table(output, &s.drive.port)
}

// The eight places for logins, and the end of the line.
fn table(output: &mut impl Write, p: &Port) -> std::io::Result<()> {
    for l in &p.logins {
        show(output, " ");
        show(output, Head(*l));
        show(output, Open(*l));
    }
    output.write_all(b"\n")
}

// A proved loop has to end and the input need not, so the records are counted up to a number that no run reaches.
// The drive that is all zeros counts as made, so that it is called, and refuses.
fn main(rt: HostRuntime) {
    let mut input = rt.stdin();
    let mut output = rt.stdout();
    let mut errors = rt.stderr();
    let mut s = start();
    s.made = true;
    let mut buffer = [0u8; 70000];
    for number in 1..=u64::MAX {
        if let Err(end) = take_next(&mut input, &mut output, &mut s, &mut buffer) {
            let _ = errors.write_all(end_line(b"vectors", number, end).as_bytes());
            return;
        }
    }
}
