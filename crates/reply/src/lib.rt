// What the drive answers, as numbers, and the one writer of it.
#![tactic(auto)]

mod commands;
mod heads;
mod parts;
mod services;

ghost use Rattle.std.specs.Prelude.{◌≡◌, ◌≤◌, ◌<◌, length};
ghost use Rattle.wire.specs.Bytes.{Wrote, onto};
ghost use Rattle.reply.specs.Payload.{payload_of, residual_flag, residual_size};
ghost use Rattle.reply.specs.Reply.{silent, bytes_of, sent_of, written_of};

use commands::{put_data, put_ready, put_response};
pub use commands::{put_sense, sense_with};
use frame::{Header, write_header};
use heads::reply_head;
use parts::put_all;
use services::{put_abort_accept, put_abort_reject, put_accepted, put_logout, put_reject};
use state::Own;
use wire::put_fill;

// The payload's place: after the 24 bytes of the header.
const PAYLOAD: usize = Header::LEAST_FRAME;

// The kinds of ACC: of 4 bytes, to PLOGI and PDISC, to ADISC, to PRLI, to PRLO.
#[derive(Clone, Copy)]
pub enum Accepted {
    Short,
    Login,
    Address,
    Pair,
    Unpair,
}

// How far the bytes wanted are from those that the host expects: as many, more, or fewer by a size.
#[derive(Clone, Copy)]
pub enum Residual {
    Exact,
    Over(u32),
    Under(u32),
}

impl Residual {
    // The flag of FCP_RSP.
    fn flag(self) -> u8
        ensures { (result ≡ residual_flag self) × (result < 9) }
    {
        match self {
            Residual::Exact => 0,
            Residual::Over(_) => 0x04,
            Residual::Under(_) => 0x08,
        }
    }

    // Its FCP_RESID.
    fn size(self) -> u32
        ensures { result ≡ residual_size self }
    {
        match self {
            Residual::Exact => 0,
            Residual::Over(n) | Residual::Under(n) => n,
        }
    }
}

#[derive(Clone, Copy)]
pub struct Sense {
    pub first: u8,
    pub key: u8,
    pub code: u8,
    pub qualifier: u8,
    pub information: u32,
}

// FCP_RSP: a response code, a status, or a status with sense.
// kept: code, status, sense key and sense code are numbers, since document 01 names each by the byte that is sent, and so do `response_bytes`, `sense_with` and the theorems of the crates above
#[derive(Clone, Copy)]
pub enum Response {
    Code(u8),
    Status(u8, Residual),
    Check(Sense, Residual),
}

// A data frame: its place among the exchange's bytes and frames, how many bytes it takes from the source.
#[derive(Clone, Copy)]
pub struct DataFrame {
    pub offset: u32,
    pub count: u16,
    pub size: u16,
    pub last: bool,
}

#[derive(Clone, Copy)]
pub enum Reply {
    Nothing,
    Accept(Accepted),
    // LS_RJT with reason and explanation
    // kept: two numbers and not the Reason of params, which this crate does not stand on: document 01 names each by the byte that is sent, and so do `reject_bytes` and the theorems of the crates above
    Reject(u8, u8),
    // LOGO by the drive
    Logout,
    // BA_ACC, BA_RJT
    AbortAccept,
    AbortReject,
    Respond(Response),
    Data(DataFrame),
    // FCP_XFER_RDY: the offset of the bytes that are asked for, and how many
    Ready(u32, u32),
}

// Writes a reply to the frame with header h at the front of the buffer, its data taken from the source, and answers its length.
// A buffer under 2,136 bytes is left alone.
// kept: 0 also where the buffer is short, and owner, header, reply and source side by side, since `sent_of` says it of any four and it cannot fail
#[tactic(auto, unfolding(crate::specs::Reply::sent_of, crate::specs::Reply::written_of))]
pub fn write(o: Own, h: Header, r: Reply, source: &[u8], reply: &mut [u8]) -> usize
    ensures value { result ≡ sent_of o h r source.now (length reply.old) }
    ensures reply_after { reply.new ≡ written_of o h r source.now reply.old }
{
    if reply.len() < Header::MOST_FRAME {
        return 0;
    }
    put_reply(o, h, r, source, reply)
}

// The payload, its fill, and then the header, which says how many bytes that has.
// kept: `Own` goes by value from here to the writers, since lent on it is copied for every reply, sent or not (31 instructions more of 2,725 where a READ is opened)
#[tactic(auto, using(wire::proofs::Fronts::onto_nil), unfolding(crate::specs::Reply::bytes_of))]
fn put_reply(o: Own, h: Header, r: Reply, source: &[u8], reply: &mut [u8]) -> usize
    requires { 2136 ≤ length reply.old }
    ensures value { result ≡ length (bytes_of o h r source.now) }
    ensures reply_after { reply.new ≡ onto (bytes_of o h r source.now) reply.old }
{
    if is_silent(r) {
        return 0;
    }
    let payload = put_payload(o, h, r, source, &mut reply[PAYLOAD..]);
    let fill = put_fill(&mut reply[PAYLOAD + payload..], payload);
    write_header(reply_head(h, r, fill), reply);
    PAYLOAD + payload + fill
}

fn is_silent(r: Reply) -> bool
    ensures { result ≡ silent r }
{
    matches!(r, Reply::Nothing)
}

fn put_payload(o: Own, h: Header, r: Reply, source: &[u8], out: &mut [u8]) -> usize
    ensures { Wrote (payload_of o h r source.now) out.old out.new result 2048 }
{
    match r {
        Reply::Nothing => put_all(&[], out),
        Reply::Accept(a) => put_accepted(o, a, out),
        Reply::Reject(reason, explanation) => put_reject(reason, explanation, out),
        Reply::Logout => put_logout(o, out),
        Reply::AbortAccept => put_abort_accept(h.ox_id, out),
        Reply::AbortReject => put_abort_reject(out),
        Reply::Respond(x) => put_response(x, out),
        Reply::Data(d) => put_data(d.size, source, out),
        Reply::Ready(offset, burst) => put_ready(offset, burst, out),
    }
}
