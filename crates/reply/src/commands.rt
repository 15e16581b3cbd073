// The payload of FCP_DATA, FCP_XFER_RDY and FCP_RSP, and sense (document 01, "Commands").
#![tactic(auto, unfolding(crate::specs::Payload::status_bytes, crate::specs::Payload::code_bytes, crate::specs::Payload::sense_bytes, crate::specs::Payload::ready_bytes))]

ghost use Rattle.std.specs.List.{concat};
ghost use Rattle.std.specs.Prelude.{◌≡◌};
ghost use Rattle.wire.specs.Bytes.{Wrote};
ghost use Rattle.reply.specs.Payload.{status_bytes, sense_with, sense_bytes, response_bytes, data_bytes, ready_bytes};

use crate::parts::{put_all, put_words, put_words_then};
use crate::{Response, Sense};
use frame::Header;
use wire::BigEndian;

// Sense of this key and code; what a drive tells has no qualifier and no information.
pub fn sense_with(key: u8, code: u8) -> Sense
    ensures { result ≡ sense_with key code }
{
    Sense {
        first: 0x70,
        key,
        code,
        qualifier: 0x00,
        information: 0,
    }
}

// The 18 sense bytes.
// kept: byte by byte, in the order of the wire, as frame's header_bytes
impl From<Sense> for [u8; 18] {
    ghost from_gives = { λ s b. b ≡ sense_bytes s };

    fn from(s: Sense) -> [u8; 18] {
        let i = s.information.bytes();
        [
            s.first,
            0,
            s.key,
            i[0],
            i[1],
            i[2],
            i[3],
            0x0a,
            0,
            0,
            0,
            0,
            s.code,
            s.qualifier,
            0,
            0,
            0,
            0,
        ]
    }
}

// Writes the 18 sense bytes at the front of the buffer, as much of them as fits.
pub fn put_sense(s: Sense, out: &mut [u8]) -> usize
    ensures { Wrote (sense_bytes s) out.old out.new result 18 }
{
    put_all(&<[u8; 18]>::from(s), out)
}

// The bytes that the frame says, 2,048 at most, from the source.
pub(crate) fn put_data(size: u16, source: &[u8], out: &mut [u8]) -> usize
    ensures { Wrote (data_bytes size source.now) out.old out.new result 2048 }
{
    let n = (size as usize).min(Header::MOST_DATA).min(source.len());
    put_all(&source[..n], out)
}

// FCP_XFER_RDY: offset, burst and a zero word.
pub(crate) fn put_ready(offset: u32, burst: u32, out: &mut [u8]) -> usize
    ensures { Wrote (ready_bytes offset burst) out.old out.new result 2048 }
{
    put_words(&[offset.bytes(), burst.bytes(), [0; 4]], out)
}

pub(crate) fn put_response(x: Response, out: &mut [u8]) -> usize
    ensures { Wrote (response_bytes x) out.old out.new result 2048 }
{
    match x {
        Response::Code(code) => put_words_then(
            &status(0x01, 0x00, 0, 0, 8),
            &[0, 0, 0, code, 0, 0, 0, 0],
            out,
        ),
        Response::Status(s, r) => put_words(&status(r.flag(), s, r.size(), 0, 0), out),
        Response::Check(s, r) => put_words_then(
            &status(0x02 + r.flag(), 0x02, r.size(), 18, 0),
            &<[u8; 18]>::from(s),
            out,
        ),
    }
}

// The six words that every FCP_RSP has.
fn status(flags: u8, status: u8, resid: u32, sense: u32, response: u32) -> [[u8; 4]; 6]
    ensures { concat result ≡ status_bytes flags status resid sense response }
{
    [
        [0; 4],
        [0; 4],
        [0, 0, flags, status],
        resid.bytes(),
        sense.bytes(),
        response.bytes(),
    ]
}
