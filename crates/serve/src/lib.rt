// The next frame of an open exchange: its data frames one after the other, of a WRITE its FCP_XFER_RDYs, and then its FCP_RSP.
#![tactic(auto, unfolding(crate::specs::Made::inquiry_first, crate::specs::Made::capacity_bytes, crate::specs::Made::sense_of, crate::specs::Made::made_bytes, crate::specs::Next::has_more, crate::specs::Next::reads_more, crate::specs::Next::place_of, crate::specs::Next::window_place, crate::specs::Next::frame_of, crate::specs::Next::ready_reply, crate::specs::Next::next_reply, crate::specs::Next::next_exchange, crate::specs::Next::source_of, crate::specs::Next::asked_by))]

ghost use Rattle.std.specs.Prelude.{◌≡◌, ◌-◌, ◌≤◌, length, drop};
ghost use Rattle.state.specs.Kinds.{is_write};
ghost use Rattle.reply.specs.Payload.{sense_bytes};
ghost use Rattle.reply.specs.Reply.{sent_of, written_of};
ghost use Rattle.formed.specs.Formed.{full_frame, total, next_bytes};
ghost use Rattle.serve.specs.Made.{inquiry_first, inquiry_bytes, capacity_bytes, sense_of, made_bytes};
ghost use Rattle.serve.specs.Next.{has_more, reads_more, burst_of, ready_reply, place_of, window_place, frame_of, next_reply, next_exchange, source_of, asked_by};
ghost use Rattle.serve.specs.Turn.{next_turn, next_turn_buffer};

use calls::{Turn, View, refuse_turn};
use cover::{covered, too_long};
use formed::{full_frame, total_of};
use frame::Header;
use refusal::Refusal;
use reply::{DataFrame, Reply, Response, Sense, put_sense, sense_with, write};
use residual::residual_of;
use state::{
    Change, Exchange, Own, Unit, advance, ask_data, empty_exchange, exchange_at, find_exchange,
    put_exchange,
};
use wire::{BigEndian, put_at, put_front};

// The next frame of the exchange of an address and an OX_ID, from a window of the unit's bytes that starts at a block; v is what a call of that address sees.
// Refused by the first of 9, 7, 10 that fits. A buffer under 2,136 bytes is left alone, and whether the state is well formed is the caller's to tell.
#[tactic(auto, unfolding(crate::specs::Turn::next_turn, crate::specs::Turn::next_turn_buffer))]
pub fn next(v: View, address: u32, ox_id: u16, start: u64, window: &[u8], reply: &mut [u8]) -> Turn
    ensures value { result ≡ next_turn v address ox_id start window.now (length reply.old) }
    ensures reply_after { reply.new ≡ next_turn_buffer v address ox_id start window.now reply.old }
{
    let l = v.login;
    let Some(i) = v.seat else {
        return refuse_turn(Refusal::NoExchange);
    };
    let Some(j) = find_exchange(l, ox_id) else {
        return refuse_turn(Refusal::NoExchange);
    };
    if l.proven != 1 {
        return refuse_turn(Refusal::Unproven);
    }
    let e = exchange_at(l, j);
    let Some(k) = window_place(l.size, e, start, window.len()) else {
        return refuse_turn(Refusal::BadWindow);
    };
    let h = asked_by(v.own.address, address, ox_id);
    let n = put_frame(v, h, e, k, window, reply);
    let f = next_exchange(l.size, e);
    let m = put_exchange(l, j, f);
    Turn {
        said: Ok(n),
        change: Change::Keep,
        at: Some(i),
        login: m,
    }
}

// Where the frame's first byte stands, in a window of at most 65,536 bytes; in a longer one nowhere.
fn window_place(size: u16, e: Exchange, start: u64, len: usize) -> Option<usize>
    ensures { result ≡ window_place (full_frame size) e start len }
{
    if too_long(len) {
        None
    } else {
        place_of(size, e, start, len)
    }
}

// Where the frame's first byte stands: of READ data in the window, if that holds all of the frame's bytes; of made data among these.
fn place_of(size: u16, e: Exchange, start: u64, len: usize) -> Option<usize>
    ensures { result ≡ place_of (full_frame size) e start len }
{
    if reads_more(e) {
        covered(e.start, e.sent, next_bytes(size, e), start, len)
    } else {
        Some(e.sent as usize)
    }
}

// Whether the next frame carries READ data.
fn reads_more(e: Exchange) -> bool
    ensures { result ≡ reads_more e }
{
    e.kind == Exchange::BLOCKS && !is_write(e) && has_more(e)
}

// Whether the data of an exchange come from the host.
fn is_write(e: Exchange) -> bool
    ensures { result ≡ is_write e }
{
    e.direction == Exchange::FROM_HOST
}

// Whether an exchange has data left to send.
fn has_more(e: Exchange) -> bool
    ensures { result ≡ has_more e }
{
    e.sent < total_of(e)
}

// The bytes that are left to send.
fn left_of(e: Exchange) -> u32
    ensures { result ≡ total e - e.sent }
{
    total_of(e).saturating_sub(e.sent)
}

// The bytes of the next data frame.
fn next_bytes(size: u16, e: Exchange) -> u32
    ensures { (result ≡ next_bytes (full_frame size) e) × (result ≤ 2048) }
{
    full_frame(size).min(left_of(e))
}

// Writes the next frame of an exchange of the login that is seen, its data from place k of their source on.
// kept: a kind is a number, here and below, as the stored state has it (C interface), and the source is picked by it, since the four are of other lengths
fn put_frame(v: View, h: Header, e: Exchange, k: usize, window: &[u8], reply: &mut [u8]) -> usize
    ensures value { result ≡ sent_of v.own h (next_reply (full_frame v.login.size) e) (source_of v.unit e k window.now) (length reply.old) }
    ensures reply_after { reply.new ≡ written_of v.own h (next_reply (full_frame v.login.size) e) (source_of v.unit e k window.now) reply.old }
{
    let o = v.own;
    let r = next_reply(v.login.size, e);
    let kind = e.kind;
    if kind == Exchange::BLOCKS {
        put_from(o, h, r, window, k, reply)
    } else if kind <= Exchange::INQUIRY_OTHER_UNIT {
        put_from(o, h, r, &inquiry_bytes(v.unit.identity, kind), k, reply)
    } else if kind == Exchange::READ_CAPACITY {
        put_from(o, h, r, &capacity_bytes(v.unit), k, reply)
    } else {
        put_from(o, h, r, &sense_bytes(sense_of(kind)), k, reply)
    }
}

// Writes a reply whose data are the source from place k on.
fn put_from(o: Own, h: Header, r: Reply, source: &[u8], k: usize, reply: &mut [u8]) -> usize
    ensures value { result ≡ sent_of o h r (drop k source.now) (length reply.old) }
    ensures reply_after { reply.new ≡ written_of o h r (drop k source.now) reply.old }
{
    write(o, h, r, &source[k.min(source.len())..], reply)
}

// The header of a frame from an address to ours, to which the next frame is a reply.
fn asked_by(own: u32, address: u32, ox_id: u16) -> Header
    ensures { result ≡ asked_by own address ox_id }
{
    Header {
        r_ctl: 0,
        d_id: own,
        reserved: 0,
        s_id: address,
        protocol: 0,
        f_ctl: 0,
        seq_id: 0,
        df_ctl: 0,
        seq_cnt: 0,
        ox_id: ox_id,
        rx_id: 0,
        offset: 0,
    }
}

// What asks for the data of a WRITE: FCP_XFER_RDY, and nothing while they are awaited.
fn ready_reply(e: Exchange) -> Reply
    ensures { result ≡ ready_reply e }
{
    if e.awaited == 1 {
        Reply::Nothing
    } else {
        Reply::Ready(e.sent, burst_of(e))
    }
}

// The bytes that are asked for at a time: those left, 65,536 at most.
fn burst_of(e: Exchange) -> u32
    ensures { result ≡ burst_of e }
{
    left_of(e).min(Exchange::MOST_BURST)
}

// The next data frame, what asks for one, or FCP_RSP where all data are sent.
fn next_reply(size: u16, e: Exchange) -> Reply
    ensures { result ≡ next_reply (full_frame size) e }
{
    if !has_more(e) {
        Reply::Respond(Response::Status(0, residual_of(e.wanted, e.expected)))
    } else if is_write(e) {
        ready_reply(e)
    } else {
        Reply::Data(frame_of(size, e))
    }
}

// The next data frame: where its bytes stand among those of the exchange, its number, how many they are, and whether they are the last.
fn frame_of(size: u16, e: Exchange) -> DataFrame
    ensures { result ≡ frame_of (full_frame size) e }
{
    let n = next_bytes(size, e);
    DataFrame {
        offset: e.sent,
        count: e.count,
        size: n as u16,
        last: e.sent + n == total_of(e),
    }
}

// The exchange after its next frame: one data frame on, its data asked for, or its place freed.
fn next_exchange(size: u16, e: Exchange) -> Exchange
    ensures { result ≡ next_exchange (full_frame size) e }
{
    if !has_more(e) {
        empty_exchange()
    } else if is_write(e) {
        ask_data(e)
    } else {
        advance(e, next_bytes(size, e))
    }
}

// INQUIRY data, of another unit than 0 with 7Fh first. Made data are made out of line, so that a next frame takes no more stack than the header tells.
fn inquiry_bytes(identity: [u8; 28], kind: u16) -> [u8; 36]
    ensures { result ≡ inquiry_bytes identity kind }
{
    let first = inquiry_first(kind);
    let head = [first, 0x00, 0x02, 0x02, 0x1f, 0x00, 0x00, 0x02];
    let mut b = [0u8; 36];
    put_front(&mut b, &head);
    put_at(&mut b, 8, &identity);
    b
}

// The first byte of INQUIRY data.
fn inquiry_first(kind: u16) -> u8
    ensures { result ≡ inquiry_first kind }
{
    if kind == Exchange::INQUIRY_OTHER_UNIT {
        0x7f
    } else {
        0x00
    }
}

// READ CAPACITY data: the last block's address, and the bytes of a block.
// kept: byte by byte, in the order of the wire
fn capacity_bytes(u: Unit) -> [u8; 8]
    ensures { result ≡ capacity_bytes u.capacity }
{
    let last = ((last_block(u.capacity) % 4294967296) as u32).bytes();
    [last[0], last[1], last[2], last[3], 0x00, 0x00, 0x02, 0x00]
}

// The address of the last block.
fn last_block(capacity: u64) -> u64
    ensures { result ≡ capacity - 1 }
{
    capacity.saturating_sub(1)
}

// What REQUEST SENSE tells.
fn sense_of(kind: u16) -> Sense
    ensures { result ≡ sense_of kind }
{
    match kind {
        Exchange::SENSE_RESET => sense_with(0x06, 0x29),
        Exchange::SENSE_CLEARED => sense_with(0x06, 0x2f),
        Exchange::SENSE_OTHER_UNIT => sense_with(0x05, 0x25),
        _ => sense_with(0x00, 0x00),
    }
}

// The 18 bytes of a sense.
// kept: written over zeros and not by From, by which a next frame takes 128 bytes of stack more, over the header's number
#[tactic(auto, unfolding(reply::specs::Payload::sense_bytes, wire::specs::Bytes::onto))]
fn sense_bytes(s: Sense) -> [u8; 18]
    ensures { result ≡ sense_bytes s }
{
    let mut b = [0u8; 18];
    put_sense(s, &mut b);
    b
}
