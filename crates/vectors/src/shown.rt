// What vectors shows, as text: bytes, answers, logins and exchanges. Hexadecimal is in upper case.
use state::{Exchange, Login, is_closed, is_free};
use std::fmt;
use std::fmt::Write as _;
use std::io::Write;

// Writes what is shown, as much of it as the output takes.
pub(crate) fn show<W: Write, T: fmt::Display + Copy>(output: &mut W, shown: T) {
    let _ = write!(Parts(output), "{shown}");
}

// An output as text that takes each part by itself: one that it does not take is lost, and the next is tried.
#[derive(Drop)]
struct Parts<'a, W>(&'a mut W);

impl<W: Write> fmt::Write for Parts<'_, W> {
    fn write_str(&mut self, s: &str) -> fmt::Result {
        let _ = self.0.write_all(s.as_bytes());
        Ok(())
    }
}

// Bytes in hexadecimal, each digit a part of its own.
#[derive(Clone, Copy)]
pub(crate) struct Hex<'a>(pub &'a [u8]);

impl fmt::Display for Hex<'_> {
    fn fmt<W: fmt::Write>(&self, f: &mut fmt::Formatter<W>) -> fmt::Result {
        for b in self.0 {
            write!(f, "{:X}{:X}", b / 16, b % 16)?;
        }
        Ok(())
    }
}

// The bytes of an answer: the refusal's number, the reply's length in two bytes, the reply, and whether the rest is untouched.
#[derive(Clone, Copy)]
pub(crate) struct Answered<'a>(pub &'a [u8]);

impl fmt::Display for Answered<'_> {
    fn fmt<W: fmt::Write>(&self, f: &mut fmt::Formatter<W>) -> fmt::Result {
        match self.0 {
            [0, _, _, _] => write!(f, "-"),
            [0, _, _, reply @ .., _] => write!(f, "{}", Hex(reply)),
            [number, ..] => write!(f, "refused {number}"),
            [] => Ok(()),
        }
    }
}

// A free place is a point; a login its low address byte, its standing, and its attention if there is one.
#[derive(Clone, Copy)]
pub(crate) struct Head(pub Login);

impl fmt::Display for Head {
    fn fmt<W: fmt::Write>(&self, f: &mut fmt::Formatter<W>) -> fmt::Result {
        let l = self.0;
        if is_free(l) {
            return write!(f, ".");
        }
        write!(f, "{}{}", Hex(&[(l.address % 256) as u8]), standing(l))?;
        if l.attention != Login::NO_ATTENTION {
            write!(f, "{}", Hex(&[l.attention]))?;
        }
        Ok(())
    }
}

// p proven, u not, in upper case where it is paired.
fn standing(l: Login) -> char {
    match (l.paired, l.proven) {
        (1, 1) => 'P',
        (1, _) => 'U',
        (_, 1) => 'p',
        _ => 'u',
    }
}

// The OX_IDs of a login's open exchanges.
#[derive(Clone, Copy)]
pub(crate) struct Open(pub Login);

impl fmt::Display for Open {
    fn fmt<W: fmt::Write>(&self, f: &mut fmt::Formatter<W>) -> fmt::Result {
        for e in &self.0.places {
            if !is_closed(*e) {
                write!(f, ":{}", Hex(&e.ox_id.to_be_bytes()))?;
            }
        }
        Ok(())
    }
}

// A login's eight places for exchanges in full. A free place is a point.
#[derive(Clone, Copy)]
pub(crate) struct Whole(pub Login);

impl fmt::Display for Whole {
    fn fmt<W: fmt::Write>(&self, f: &mut fmt::Formatter<W>) -> fmt::Result {
        for e in &self.0.places {
            if is_closed(*e) {
                write!(f, " ")?;
                write!(f, ".")?;
            } else {
                write!(f, " {}", Opened(*e))?;
            }
        }
        Ok(())
    }
}

// An exchange is its OX_ID, what is sent, of a READ or WRITE the first block and how many, then in bytes what is wanted, FCP_DL and what is sent, the frames that the drive sent,
// and whether data come from the host and are awaited.
#[derive(Clone, Copy)]
struct Opened(Exchange);

impl fmt::Display for Opened {
    fn fmt<W: fmt::Write>(&self, f: &mut fmt::Formatter<W>) -> fmt::Result {
        let e = self.0;
        write!(f, "{}={}", Hex(&e.ox_id.to_be_bytes()), Kind(e))?;
        write!(f, ",{},{},{}", e.start, e.blocks, e.wanted)?;
        write!(f, ",{},{},{}", e.expected, e.sent, e.count)?;
        if e.direction != Exchange::TO_HOST {
            write!(f, ",from-host")?;
        }
        if e.awaited != 0 {
            write!(f, ",awaited")?;
        }
        Ok(())
    }
}

// What an exchange sends.
#[derive(Clone, Copy)]
struct Kind(Exchange);

impl fmt::Display for Kind {
    fn fmt<W: fmt::Write>(&self, f: &mut fmt::Formatter<W>) -> fmt::Result {
        let e = self.0;
        match (e.kind, e.direction) {
            (Exchange::BLOCKS, Exchange::FROM_HOST) => write!(f, "WRITE"),
            (Exchange::BLOCKS, _) => write!(f, "READ"),
            (Exchange::INQUIRY, _) => write!(f, "INQUIRY"),
            (Exchange::INQUIRY_OTHER_UNIT, _) => write!(f, "INQUIRY-7F"),
            (Exchange::READ_CAPACITY, _) => write!(f, "CAPACITY"),
            (kind, _) => write!(
                f,
                "SENSE-{}{}",
                Hex(&sense(kind).to_be_bytes()),
                Hex(&[0x00])
            ),
        }
    }
}

// Key and code of the sense that an exchange sends, FFFFh for what is no sense. The qualifier is 00h.
// kept: a number, and FFFFh for no sense, since its four digits are what is written of any stored kind
fn sense(kind: u16) -> u16 {
    match kind {
        Exchange::SENSE_NONE => 0x0000,
        Exchange::SENSE_RESET => 0x0629,
        Exchange::SENSE_CLEARED => 0x062f,
        Exchange::SENSE_OTHER_UNIT => 0x0525,
        _ => 0xffff,
    }
}

// All that a login keeps but for its exchanges: flags, attention, W19/B1, W20/B1, W18 size and address; then both names.
#[derive(Clone, Copy)]
pub(crate) struct Kept(pub Login);

impl fmt::Display for Kept {
    fn fmt<W: fmt::Write>(&self, f: &mut fmt::Formatter<W>) -> fmt::Result {
        let l = self.0;
        let flags = [
            l.used,
            l.proven,
            l.paired,
            l.attention,
            l.concurrent,
            l.sequences,
        ];
        let size = l.size.to_be_bytes();
        write!(
            f,
            "{}{}{}",
            Hex(&flags),
            Hex(&size),
            Hex(&l.address.to_be_bytes())
        )?;
        write!(f, " {} {}", Hex(&l.port_name), Hex(&l.node_name))
    }
}
