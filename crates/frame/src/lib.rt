// The frame header, read and written.
#![tactic(auto)]

ghost use Rattle.std.specs.Prelude.{◌≡◌};
ghost use Rattle.wire.specs.Bytes.{onto};
ghost use Rattle.frame.specs.Head.{header_of, header_bytes};

use wire::{BigEndian, be24, bytes3, part, put_front};

// The fields of a header in their order. The three fields of 24 bits stand in 32; protocol is TYPE.
// kept: r_ctl and protocol are numbers, since any byte may stand in a header; arrival's form_of makes an enum of those that pass
#[derive(Clone, Copy)]
pub struct Header {
    pub r_ctl: u8,
    pub d_id: u32,
    pub reserved: u8,
    pub s_id: u32,
    pub protocol: u8,
    pub f_ctl: u32,
    pub seq_id: u8,
    pub df_ctl: u8,
    pub seq_cnt: u16,
    pub ox_id: u16,
    pub rx_id: u16,
    pub offset: u32,
}

impl Header {
    // the bytes of a frame: its header alone at least; a reply buffer has room for the most
    pub const LEAST_FRAME: usize = 24;

    pub const MOST_FRAME: usize = 2136;
    // the bytes of data that a frame carries at most, also where the login's size is larger
    pub const MOST_DATA: usize = 2048;
}

// The header of any frame; a frame of fewer than 24 bytes reads as if zeros followed it.
// kept: a function and no From, since a frame may be shorter than its header
#[tactic(auto, unfolding(crate::specs::Head::header_of))]
pub fn read_header(frame: &[u8]) -> Header
    ensures { result ≡ header_of frame.now }
{
    let b = part::<24>(frame, 0);
    Header {
        r_ctl: b[0],
        d_id: be24(&b, 1),
        reserved: b[4],
        s_id: be24(&b, 5),
        protocol: b[8],
        f_ctl: be24(&b, 9),
        seq_id: b[12],
        df_ctl: b[13],
        seq_cnt: u16::read(&b, 14),
        ox_id: u16::read(&b, 16),
        rx_id: u16::read(&b, 18),
        offset: u32::read(&b, 20),
    }
}

// The 24 bytes of a header; of a 24-bit field the low three bytes.
// kept: its bytes listed one by one stand in the frame's order; twelve copies into ranges would say each field's place by numbers, and are no plainer.
#[tactic(auto, unfolding(crate::specs::Head::header_bytes))]
fn header_bytes(h: Header) -> [u8; 24]
    ensures { result ≡ header_bytes h }
{
    let d = bytes3(h.d_id);
    let s = bytes3(h.s_id);
    let f = bytes3(h.f_ctl);
    let n = h.seq_cnt.bytes();
    let o = h.ox_id.bytes();
    let r = h.rx_id.bytes();
    let p = h.offset.bytes();
    [
        h.r_ctl, d[0], d[1], d[2], h.reserved, s[0], s[1], s[2], h.protocol, f[0], f[1], f[2],
        h.seq_id, h.df_ctl, n[0], n[1], o[0], o[1], r[0], r[1], p[0], p[1], p[2], p[3],
    ]
}

// The header at the front of the buffer, as much of it as fits.
pub fn write_header(h: Header, out: &mut [u8])
    ensures { out.new ≡ onto (header_bytes h) out.old }
{
    let b = header_bytes(h);
    put_front(out, &b);
}
