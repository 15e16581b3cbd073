// What a data frame comes to, for an open WRITE of its sender (document 02, request 2): it is refused, a fault ends the exchange, or its bytes go into the lent window.
#![tactic(auto)]

ghost use Rattle.std.specs.Prelude.{◌≡◌, [], ◌+◌, ◌<◌, cond, eqb, ltb, length};
ghost use Rattle.wire.specs.Bytes.{over};
ghost use Rattle.state.specs.Changes.{exchange_at, with_exchange};
ghost use Rattle.reply.specs.declared.Reply.TheVariants.{Nothing, Respond};
ghost use Rattle.reply.specs.declared.Response.TheVariants.{Code};
ghost use Rattle.reply.specs.Reply.{sent_of, written_of};
ghost use Rattle.calls.specs.Turn.{stores, sent_turn};
ghost use Rattle.taking.specs.Taking.{data_size, data_in, burst_end, fault_of, find_write, covered_step, step_in, taken_on, taking_turn, taking_buffer, taking_window};

use calls::{Turn, View, refuse_turn, send_turn, store_login};
use cover::lent_place;
use formed::total_of;
use frame::Header;
use refusal::Refusal;
use reply::{Reply, Response, write};
use state::{
    Exchange, Login, Own, end_exchange, exchange_at, find_exchange, put_exchange, take_data,
};
use wire::put_at;

// What a data frame of an open WRITE comes to: a fault, with the place of its exchange and the RSP_CODE;
// or taken, with the place of its exchange and where its bytes begin in the window.
#[derive(Clone, Copy)]
pub enum Step {
    Fault(usize, u8),
    Take(usize, usize),
}

// Why a data frame is refused: it is for no open WRITE, or the window is too long or does not hold the bytes.
#[derive(Clone, Copy)]
pub enum Untaken {
    NoWrite,
    Uncovered,
}

// What a data frame that arrived well comes to, seen by its sender, with a window that starts at a block: refused with 11 or 10, answered with a fault, or its bytes go there.
// A port that is not logged in has no open WRITE.
// kept: a match picks the step, since each arm hands on other values
pub fn data_turn(
    v: View,
    h: Header,
    frame: &[u8],
    start: u64,
    window: &mut [u8],
    reply: &mut [u8],
) -> Turn
    ensures value { result ≡ taking_turn v h (length frame.now) start (length window.old) (length reply.old) }
    ensures reply_after { reply.new ≡ taking_buffer v h (length frame.now) start (length window.old) reply.old }
    ensures window_after { window.new ≡ taking_window v h frame.now start window.old }
{
    let l = v.login;
    let Some(i) = v.seat else {
        return refuse_turn(Refusal::NoWrite);
    };
    match step_in(l, h, frame.len(), start, window.len()) {
        Err(Untaken::NoWrite) => refuse_turn(Refusal::NoWrite),
        Err(Untaken::Uncovered) => refuse_turn(Refusal::BadWindow),
        Ok(Step::Fault(j, code)) => fault_turn(v.own, h, i, end_exchange(l, j), code, reply),
        Ok(Step::Take(j, k)) => {
            put_data(h, frame, k, window);
            take_turn(l, i, j, data_size(h, frame.len()))
        }
    }
}

// What a frame of this size with header h comes to as a data frame of the login l, at a window of len bytes that starts at a block.
// kept: a header beside a frame's size, here and below, since each function promises an answer for any two
#[tactic(auto, unfolding(crate::specs::Taking::step_of))]
fn step_in(l: Login, h: Header, size: usize, start: u64, len: usize) -> Result<Step, Untaken>
    ensures { result ≡ step_in l h size start len }
{
    let n = data_size(h, size);
    let j = find_write(l, h.ox_id).ok_or(Untaken::NoWrite)?;
    let e = exchange_at(l, j);
    if let Some(code) = fault_of(e, h.offset, n) {
        return Ok(Step::Fault(j, code));
    }
    covered_step(e, j, n, start, len)
}

// A fault is answered with its RSP_CODE, and the login at place i is l after it.
fn fault_turn(o: Own, h: Header, i: usize, l: Login, code: u8, reply: &mut [u8]) -> Turn
    ensures value { result ≡ sent_turn (sent_of o h (Respond (Code code)) [] (length reply.old)) (stores (Respond (Code code)) i l) }
    ensures reply_after { reply.new ≡ written_of o h (Respond (Code code)) [] reply.old }
{
    let r = Reply::Respond(Response::Code(code));
    send_turn(write(o, h, r, &[], reply), store_login(r, i, l))
}

// The bytes of a data frame go into the window, from a place on.
fn put_data(h: Header, frame: &[u8], k: usize, window: &mut [u8])
    ensures { window.new ≡ over window.old k (data_in h frame.now) }
{
    let from = Header::LEAST_FRAME.min(frame.len());
    let to = from + data_size(h, frame.len());
    put_at(window, k, &frame[from..to]);
}

// Nothing is sent for n bytes that are taken; the login at place i has an exchange at place j that is on by these.
fn take_turn(l: Login, i: usize, j: usize, n: usize) -> Turn
    ensures { result ≡ sent_turn 0 (stores Nothing i (with_exchange l j (taken_on (exchange_at l j) n))) }
{
    let e = taken_on(exchange_at(l, j), n);
    send_turn(0, store_login(Reply::Nothing, i, put_exchange(l, j, e)))
}

// The bytes that a data frame of this size carries: its payload without the fill.
fn data_size(h: Header, size: usize) -> usize
    ensures { result ≡ data_size h size }
{
    let fill = (h.f_ctl % 4) as usize;
    let payload = size.saturating_sub(Header::LEAST_FRAME);
    payload.saturating_sub(fill)
}

// The place of a login's open WRITE of this OX_ID.
#[tactic(auto, unfolding(crate::specs::Taking::find_write))]
fn find_write(l: Login, ox_id: u16) -> Option<usize>
    ensures { result ≡ find_write l ox_id }
{
    let j = find_exchange(l, ox_id)?;
    if exchange_at(l, j).direction == Exchange::FROM_HOST {
        Some(j)
    } else {
        None
    }
}

// RSP_CODE for a data frame of n bytes at an offset, if it is a fault.
// kept: offset and number of bytes side by side, which are compared once each
#[tactic(auto, unfolding(crate::specs::Taking::fault_of))]
fn fault_of(e: Exchange, offset: u32, n: usize) -> Option<u8>
    ensures { result ≡ fault_of e offset n }
{
    if offset != e.sent {
        Some(0x03)
    } else if is_past(burst_end(e), offset, n) {
        Some(0x01)
    } else {
        None
    }
}

// Whether n bytes from an offset on go past an end; by subtraction, so that no sum wraps.
fn is_past(end: u64, offset: u32, n: usize) -> bool
    ensures { result ≡ ltb end (offset + n) }
{
    let from = offset as u64;
    end < from || end - from < n as u64
}

// The end of the burst that was last asked for; where no data are awaited that of what was sent.
#[tactic(auto, using(crate::proofs::Ways::burst_total, crate::proofs::Ways::burst_full, crate::proofs::Ways::burst_none))]
fn burst_end(e: Exchange) -> u64
    ensures { (result ≡ burst_end e) × (result < 4294967297) }
{
    if e.awaited == 1 {
        let all = total_of(e) as u64;
        let burst = Exchange::MOST_BURST as u64;
        all.min((e.sent as u64 / burst + 1) * burst)
    } else {
        e.sent as u64
    }
}

// Where the n bytes begin in the window, if it holds them.
#[tactic(auto, unfolding(crate::specs::Taking::covered_step))]
fn covered_step(e: Exchange, j: usize, n: usize, start: u64, len: usize) -> Result<Step, Untaken>
    ensures { result ≡ covered_step e j n start len }
{
    let k = lent_place(e.start, e.sent, n, start, len).ok_or(Untaken::Uncovered)?;
    Ok(Step::Take(j, k))
}

// The exchange after n bytes more; data are awaited until the burst's end.
#[tactic(auto, using(crate::proofs::Ways::taken_is))]
fn taken_on(e: Exchange, n: usize) -> Exchange
    ensures { result ≡ taken_on e n }
{
    take_data(e, (n % 4294967296) as u32, awaited_after(e, n))
}

// Whether data are awaited after n bytes more: 1 short of the burst's end.
// kept: 0 or 1, the stored flag of the C interface that take_data stores
#[tactic(auto, using(crate::proofs::Ways::awaited_past, crate::proofs::Ways::awaited_end, crate::proofs::Ways::awaited_short))]
fn awaited_after(e: Exchange, n: usize) -> u8
    ensures { result ≡ cond (eqb (e.sent + n) (burst_end e)) 0 1 }
{
    let end = burst_end(e);
    let sent = e.sent as u64;
    if sent <= end && end - sent == n as u64 {
        0
    } else {
        1
    }
}
