// The window of a next frame, and of a data frame in, as one thing: the block that it starts at, and the lent bytes.
#![tactic(auto)]

ghost use Rattle.std.specs.Prelude.{◌≡◌, length};
ghost use Rattle.drive.specs.Entry.{next_frame, next_frame_buffer};
ghost use Rattle.taking.specs.Taking.{taking_turn, taking_buffer, taking_window};
ghost use Rattle.drive.specs.Turn.{next_out_turn, next_out_buffer};

use calls::{Turn, View, look};
use drive::{Answer, Drive};
use frame::Header;
use refusal::Refusal;

// kept: two structs, one of bytes to read and one of bytes to write, and functions with plain parameters beside them, since document 01 names one struct and one thin function that hands slice and number on (docs/TRACE.md)
#[derive(Clone, Copy)]
pub struct Window<'a> {
    pub start: u64,
    pub bytes: &'a [u8],
}

// The same where data may be stored.
#[derive(Drop)]
pub struct Space<'a> {
    pub start: u64,
    pub bytes: &'a mut [u8],
}

// What a data frame that arrived well comes to, with a space for its data: hands block and bytes on to what its sender sees.
pub fn data_turn_into<'a>(v: View, h: Header, frame: &[u8], w: Space<'a>, reply: &mut [u8]) -> Turn
    ensures { (result ≡ taking_turn v h (length frame.now) w.entry.start (length w.entry.bytes.now) (length reply.old))
        × (reply.new ≡ taking_buffer v h (length frame.now) w.entry.start (length w.entry.bytes.now) reply.old)
        × (w.exit.1.0.now ≡ taking_window v h frame.now w.entry.start w.entry.bytes.now) }
{
    taking::data_turn(v, h, frame, w.start, &mut *w.bytes, reply)
}

// The same with plain parameters, for callers that hold no space.
pub fn data_turn(
    v: View,
    h: Header,
    frame: &[u8],
    start: u64,
    bytes: &mut [u8],
    reply: &mut [u8],
) -> Turn
    ensures { (result ≡ taking_turn v h (length frame.now) start (length bytes.old) (length reply.old))
        × (reply.new ≡ taking_buffer v h (length frame.now) start (length bytes.old) reply.old)
        × (bytes.new ≡ taking_window v h frame.now start bytes.old) }
{
    data_turn_into(v, h, frame, Space { start, bytes }, reply)
}

// What the next frame out of the exchange of an address and an OX_ID comes to, from a window: hands block and bytes on to what the port at that address sees.
pub fn next_turn_from<'a>(
    v: View,
    address: u32,
    ox_id: u16,
    w: Window<'a>,
    reply: &mut [u8],
) -> Turn
    ensures { (result ≡ next_out_turn v address ox_id w.entry.start w.entry.bytes.now (length reply.old))
        × (reply.new ≡ next_out_buffer v address ox_id w.entry.start w.entry.bytes.now reply.old) }
{
    drive::next_turn(v, address, ox_id, w.start, w.bytes, reply)
}

// The same with plain parameters, for callers that hold no window.
pub fn next_turn(
    v: View,
    address: u32,
    ox_id: u16,
    start: u64,
    bytes: &[u8],
    reply: &mut [u8],
) -> Turn
    ensures { (result ≡ next_out_turn v address ox_id start bytes.now (length reply.old))
        × (reply.new ≡ next_out_buffer v address ox_id start bytes.now reply.old) }
{
    next_turn_from(
        v,
        address,
        ox_id,
        Window {
            start: start,
            bytes: bytes,
        },
        reply,
    )
}

// The next frame out of a drive: refused by the first of 1, 2, 9, 7, 10 that fits, or the frame at the front of the buffer and the drive after it.
pub fn next_frame(
    d: Drive,
    address: u32,
    ox_id: u16,
    start: u64,
    bytes: &[u8],
    reply: &mut [u8],
) -> Answer
    ensures { (result ≡ next_frame d address ox_id start bytes.now (length reply.old))
        × (reply.new ≡ next_frame_buffer d address ox_id start bytes.now reply.old) }
{
    if reply.len() < Header::MOST_FRAME {
        return d.refuse(Refusal::ShortBuffer);
    }
    let u = d.unit;
    let p = d.port;
    let v = look(u, &p, address);
    let t = next_turn(v, address, ox_id, start, bytes, reply);
    d.after(t)
}
