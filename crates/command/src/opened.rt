// What a command wants, and the exchange that opens (document 01, "Wanted").
#![tactic(auto, unfolding(crate::specs::Tests::sense_kind, crate::specs::Tests::inquiry_kind, crate::specs::Command::told_of, crate::specs::Command::bit_for))]

ghost use Rattle.std.specs.Prelude.{◌≡◌, cond};
ghost use Rattle.state.specs.Kinds.{to_host, from_host};
ghost use Rattle.command.specs.Tests.{writes, sense_kind, inquiry_kind, exchange_for};
ghost use Rattle.command.specs.Command.{told_of, bit_for, opened_of};

use crate::{Cmnd, CmndFault, Operation};
use calls::{Served, serve_as};
use formed::total_of;
use reply::{Reply, Response};
use residual::residual_of;
use state::{Exchange, Login, empty_exchange, free_exchange, put_exchange, set_attention};

// SCSI status: the command is done; no place is free for its exchange.
const GOOD: u8 = 0x00;

const TASK_SET_FULL: u8 = 0x28;

// The exchange that would send or take what a command wants; one that wants nothing opens none.
// kept: kinds, directions and attentions are numbers, here and below, as the stored state has them (C interface)
pub(crate) fn exchange_for(o: Operation, attention: u8, ox_id: u16, c: Cmnd) -> Exchange
    ensures { result ≡ exchange_for o attention ox_id c.lun c.expected }
{
    let fresh = Exchange {
        ox_id,
        expected: c.expected,
        direction: o.direction(),
        ..empty_exchange()
    };
    match o {
        Operation::TestUnitReady | Operation::Unknown => fresh,
        Operation::RequestSense(most) => Exchange {
            kind: sense_kind(c.lun, attention),
            wanted: u32::from(most).min(18),
            ..fresh
        },
        Operation::Inquiry(most) => Exchange {
            kind: inquiry_kind(c.lun),
            wanted: u32::from(most).min(36),
            ..fresh
        },
        Operation::ReadCapacity => Exchange {
            kind: Exchange::READ_CAPACITY,
            wanted: 8,
            ..fresh
        },
        // 512 bytes for each block
        Operation::Read(r) | Operation::Write(r) => Exchange {
            start: r.start,
            blocks: u32::from(r.blocks),
            wanted: 512 * u32::from(r.blocks),
            kind: Exchange::BLOCKS,
            ..fresh
        },
    }
}

impl Operation {
    // Where its data go: those of a WRITE come from the host.
    fn direction(self) -> u8
        ensures { result ≡ cond (writes self) from_host to_host }
    {
        match self {
            Operation::Write(_) => Exchange::FROM_HOST,
            _ => Exchange::TO_HOST,
        }
    }
}

// What REQUEST SENSE reports, as the kind of its exchange.
fn sense_kind(lun: u64, attention: u8) -> u16
    ensures { result ≡ sense_kind lun attention }
{
    if lun != 0 {
        return Exchange::SENSE_OTHER_UNIT;
    }
    match attention {
        Login::NO_ATTENTION => Exchange::SENSE_NONE,
        Login::RESET => Exchange::SENSE_RESET,
        _ => Exchange::SENSE_CLEARED,
    }
}

fn inquiry_kind(lun: u64) -> u16
    ensures { result ≡ inquiry_kind lun }
{
    if lun == 0 {
        Exchange::INQUIRY
    } else {
        Exchange::INQUIRY_OTHER_UNIT
    }
}

// Nothing to send or take is answered at once; else tests 8 and 9, and the exchange opens.
#[tactic(auto, unfolding(crate::specs::Command::opened_of))]
pub(crate) fn answer(l: Login, c: Cmnd, e: Exchange) -> Served
    ensures { result ≡ opened_of l c e }
{
    if total_of(e) == 0 {
        let good = Response::Status(GOOD, residual_of(e.wanted, e.expected));
        return serve_as(Reply::Respond(good), l);
    }
    if !data_bit(e, c) {
        return serve_as(Reply::Respond(Response::Code(CmndFault::Fields.code())), l);
    }
    let Some(j) = free_exchange(l) else {
        let full = Response::Status(TASK_SET_FULL, residual_of(0, e.expected));
        return serve_as(Reply::Respond(full), l);
    };
    serve_as(Reply::Nothing, put_exchange(told(l, e.kind), j, e))
}

// The bit that test 8 asks for: the write bit of a WRITE, else the read bit.
fn data_bit(e: Exchange, c: Cmnd) -> bool
    ensures { result ≡ bit_for e c }
{
    if e.direction == Exchange::FROM_HOST {
        c.write
    } else {
        c.read
    }
}

// An attention is cleared as the exchange that reports it opens.
fn told(l: Login, kind: u16) -> Login
    ensures { result ≡ told_of l kind }
{
    if kind == Exchange::SENSE_RESET || kind == Exchange::SENSE_CLEARED {
        set_attention(l, Login::NO_ATTENTION)
    } else {
        l
    }
}
