// The payload of each answer to a link service and to ABTS (document 01, "Link services").
#![tactic(auto, unfolding(crate::specs::Payload::short_bytes, crate::specs::Payload::login_bytes, crate::specs::Payload::address_bytes, crate::specs::Payload::pair_bytes, crate::specs::Payload::unpair_bytes, crate::specs::Payload::reject_bytes, crate::specs::Payload::logout_bytes, crate::specs::Payload::abort_accept_bytes, crate::specs::Payload::abort_reject_bytes))]

ghost use Rattle.wire.specs.Bytes.{Wrote};
ghost use Rattle.reply.specs.Payload.{address_bytes, accepted_bytes, reject_bytes, logout_bytes, abort_accept_bytes, abort_reject_bytes};

use crate::Accepted;
use crate::parts::{put_words, put_words_then};
use state::Own;
use wire::{BigEndian, put_at};

// The first word of an ACC, and all of the short one.
const SHORT: [u8; 4] = [0x02, 0, 0, 0];

// To PRLI and to PRLO.
const PAIR: [[u8; 4]; 5] = [
    [0x02, 0x10, 0, 0x14],
    [0x08, 0, 0x21, 0],
    [0; 4],
    [0; 4],
    [0, 0, 0, 0x12],
];

const UNPAIR: [[u8; 4]; 5] = [
    [0x02, 0x10, 0, 0x14],
    [0x08, 0, 0x01, 0],
    [0; 4],
    [0; 4],
    [0; 4],
];

pub(crate) fn put_accepted(own: Own, a: Accepted, out: &mut [u8]) -> usize
    ensures { Wrote (accepted_bytes own.address own.accept a) out.old out.new result 2048 }
{
    match a {
        Accepted::Short => put_words(&[SHORT], out),
        Accepted::Login => put_words_then(&[SHORT], &own.accept, out),
        Accepted::Address => put_address(own, out),
        Accepted::Pair => put_words(&PAIR, out),
        Accepted::Unpair => put_words(&UNPAIR, out),
    }
}

fn put_address(own: Own, out: &mut [u8]) -> usize
    ensures { Wrote (address_bytes own.address own.accept) out.old out.new result 2048 }
{
    let a = own.address.bytes();
    let n = put_words_then(&[SHORT, a], &own.accept[16..32], out);
    put_at(out, n, &a);
    n + a.len()
}

pub(crate) fn put_reject(reason: u8, explanation: u8, out: &mut [u8]) -> usize
    ensures { Wrote (reject_bytes reason explanation) out.old out.new result 2048 }
{
    put_words(&[[0x01, 0, 0, 0], [0, reason, explanation, 0]], out)
}

pub(crate) fn put_logout(own: Own, out: &mut [u8]) -> usize
    ensures { Wrote (logout_bytes own.address own.accept) out.old out.new result 2048 }
{
    put_words_then(
        &[[0x05, 0, 0, 0], own.address.bytes()],
        &own.accept[16..24],
        out,
    )
}

// kept: the two bytes of a number stand among constants of one word
pub(crate) fn put_abort_accept(ox_id: u16, out: &mut [u8]) -> usize
    ensures { Wrote (abort_accept_bytes ox_id) out.old out.new result 2048 }
{
    let o = ox_id.bytes();
    put_words(&[[0; 4], [o[0], o[1], 0xff, 0xff], [0, 0, 0xff, 0xff]], out)
}

pub(crate) fn put_abort_reject(out: &mut [u8]) -> usize
    ensures { Wrote abort_reject_bytes out.old out.new result 2048 }
{
    put_words(&[[0, 0x03, 0x03, 0]], out)
}
