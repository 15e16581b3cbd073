// Reads login records of 116 bytes from standard input and writes a line for each: its number and its judgement.
// Where it cannot go on it says so on standard error, with the record's number.
#![tactic(auto)]

use judging::{judge, line_for};
use records::fill;
use saying::{End, end_line};
use std::io::{Read, Write};

// Judges the next record. After one that the end of the input cuts the input is over.
fn judge_next(input: &mut impl Read, output: &mut impl Write, number: u64) -> Result<(), End> {
    let mut login = [0u8; 116];
    let n = fill(input, &mut login)?;
    if n == 0 {
        return Err(End::Over);
    }
    output
        .write_all(line_for(number, judge(&login[..n])).as_bytes())
        .map_err(|_| End::Unwritten)?;
    if n < 116 { Err(End::Over) } else { Ok(()) }
}

// A proved loop has to end and the input need not, so the records are counted up to a number that no run reaches.
fn main(rt: HostRuntime) {
    let mut input = rt.stdin();
    let mut output = rt.stdout();
    let mut errors = rt.stderr();
    for number in 1..=u64::MAX {
        if let Err(end) = judge_next(&mut input, &mut output, number) {
            let _ = errors.write_all(end_line(b"judges", number, end).as_bytes());
            return;
        }
    }
}
