// The header of each reply (document 01, "Header and reply headers").
#![tactic(auto, unfolding(crate::specs::Reply::answer_head, crate::specs::Reply::logout_head, crate::specs::Reply::data_head))]

ghost use Rattle.std.specs.Prelude.{◌≡◌, ◌<◌, cond};
ghost use Rattle.reply.specs.Reply.{answer_head, logout_head, data_head, head_of};

use crate::{DataFrame, Reply};
use frame::Header;

// The header of a reply whose payload has this many fill bytes.
pub(crate) fn reply_head(h: Header, r: Reply, fill: usize) -> Header
    requires { fill < 4 }
    ensures { result ≡ head_of h r fill }
{
    let n = fill as u32;
    match r {
        Reply::Nothing | Reply::Accept(_) | Reply::Reject(_, _) => answer_head(
            h, 0x23, 0x01, 0x990000, 0xff,
        ),
        Reply::Logout => logout_head(h),
        Reply::AbortAccept => answer_head(h, 0x84, 0x00, 0x990000, h.seq_id),
        Reply::AbortReject => answer_head(h, 0x85, 0x00, 0x990000, h.seq_id),
        Reply::Respond(_) => answer_head(h, 0x07, 0x08, 0x990000 + n, 0x00),
        Reply::Data(d) => data_head(h, d, n),
        Reply::Ready(_, _) => answer_head(h, 0x05, 0x08, 0x890000 + n, 0x00),
    }
}

// kept: R_CTL, TYPE and F_CTL are numbers, here and above and below, since document 01 names each by the bytes that are sent
fn answer_head(h: Header, r_ctl: u8, protocol: u8, f_ctl: u32, seq_id: u8) -> Header
    ensures { result ≡ answer_head h r_ctl protocol f_ctl seq_id }
{
    Header {
        r_ctl,
        d_id: h.s_id,
        reserved: 0,
        s_id: h.d_id,
        protocol,
        f_ctl,
        seq_id,
        df_ctl: 0,
        seq_cnt: 0,
        ox_id: h.ox_id,
        rx_id: 0xffff,
        offset: 0,
    }
}

fn logout_head(h: Header) -> Header
    ensures { result ≡ logout_head h }
{
    Header {
        ox_id: (h.s_id % 65536) as u16,
        ..answer_head(h, 0x22, 0x01, 0x290000, 0x00)
    }
}

fn data_head(h: Header, d: DataFrame, fill: u32) -> Header
    requires { fill < 4 }
    ensures { result ≡ data_head h d fill }
{
    Header {
        seq_cnt: d.count,
        offset: d.offset,
        ..answer_head(h, 0x01, 0x08, data_control(d.last) + fill, 0x01)
    }
}

// F_CTL of a data frame, last or not.
// kept: a function and no From, since the flag of no other frame makes F_CTL so
fn data_control(last: bool) -> u32
    ensures { (result ≡ cond last 0x880008 0x800008) × (result < 0x1000000) }
{
    if last { 0x880008 } else { 0x800008 }
}
