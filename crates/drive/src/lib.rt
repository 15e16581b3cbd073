// The drive: made from a setup, handed frames, asked for the next ones, told of events. Every entry answers what it said beside the drive, which a refusal leaves as it was.
#![tactic(auto)]

ghost use Rattle.std.specs.Prelude.{◌≡◌, length};
ghost use Rattle.drive.specs.Drive.{refused, made_from, no_drive, new_answer, change_of, event_answer};
ghost use Rattle.drive.specs.Entry.{frame_in, frame_in_buffer, frame_in_window};
ghost use Rattle.drive.specs.Turn.{unproven_at, arrived_in, decision_of, passed_turn, passed_buffer, arrived_turn, arrived_buffer, arrived_window, next_out_turn, next_out_buffer, answer_to};

use arrival::{Form, form_of, judge};
use calls::{
    Decision, Turn, View, answer_only, look, port_after, refuse_turn, send_turn, sight_of,
};
use command::command;
use formed::setup_rules;
use frame::{Header, read_header};
use link::{abts, link};
use refusal::Refusal;
use reply::{Reply, write};
use serve::next;
use state::{Change, Port, Setup, Unit, change_all, empty_login};
use taking::data_turn;

// The R_CTL of a data frame.
// kept: a name here beside arrival's, and below beside frame's, since the edits data_as_other and frame_room_2135 change these
const DATA: u8 = Form::DATA;

// The bytes of a reply buffer at least.
const LEAST_ROOM: usize = Header::MOST_FRAME;

#[repr(C)]
#[derive(Clone, Copy)]
pub struct Drive {
    pub unit: Unit,
    pub port: Port,
}

#[derive(Clone, Copy)]
pub struct Answer {
    pub said: Result<usize, Refusal>,
    pub drive: Drive,
}

// What the port chip reports.
#[derive(Clone, Copy)]
pub enum Event {
    LoopReset,
    TimeOver,
    PowerOn,
}

impl Drive {
    // A drive with no logins, or refusal 8 and the drive that is all zeros.
    #[tactic(auto, unfolding(crate::specs::Drive::new_answer))]
    pub fn new(setup: Setup) -> Answer
        ensures { result ≡ new_answer setup }
    {
        if setup_rules(setup) {
            Answer {
                said: Ok(0),
                drive: Drive::from(setup),
            }
        } else {
            no_drive().refuse(Refusal::BadSetup)
        }
    }

    // A frame in, with a window of the unit's bytes that starts at a block: refused by the first of 1 to 7, 11, 10 that fits it, or its reply at the front of the buffer,
    // the bytes of a data frame that is taken in the window, and the drive after it.
    #[tactic(auto, using(crate::proofs::Ways::says_short, crate::proofs::Ways::says_refused, crate::proofs::Ways::says_arrived))]
    pub fn frame_in(self, frame: &[u8], start: u64, window: &mut [u8], reply: &mut [u8]) -> Answer
        ensures value { result ≡ frame_in self frame.now start window.old (length reply.old) }
        ensures reply_after { reply.new ≡ frame_in_buffer self frame.now start window.old reply.old }
        ensures window_after { window.new ≡ frame_in_window self frame.now start window.old (length reply.old) }
    {
        if reply.len() < LEAST_ROOM {
            return self.refuse(Refusal::ShortBuffer);
        }
        let h = read_header(frame);
        let v = look(self.unit, &self.port, h.s_id);
        match arrived(v, h, frame) {
            Err(x) => self.refuse(x),
            Ok(_) => self.after(arrived_turn(v, h, frame, start, window, reply)),
        }
    }

    // The drive after an event, or refusal 2 and the drive as it was.
    pub fn event(self, e: Event) -> Answer
        ensures { result ≡ event_answer self e }
    {
        if sight_of(self.unit, &self.port).fine {
            Answer {
                said: Ok(0),
                drive: Drive {
                    port: change_all(self.port, change_of(e)),
                    ..self
                },
            }
        } else {
            self.refuse(Refusal::IllFormed)
        }
    }

    // The answer of a turn: what was said, and the drive with its port after it.
    pub fn after(self, t: Turn) -> Answer
        ensures { result ≡ answer_to self t }
    {
        Answer {
            said: t.said,
            drive: Drive {
                port: port_after(self.port, t),
                ..self
            },
        }
    }

    // A refusal, and the drive unchanged.
    pub fn refuse(self, x: Refusal) -> Answer
        ensures { result ≡ refused x self }
    {
        Answer {
            said: Err(x),
            drive: self,
        }
    }
}

// What a frame in that arrived well comes to, seen by its sender, if it is no data frame. A buffer under 2,136 bytes is left alone.
#[tactic(auto, using(crate::proofs::Ways::turn_passed))]
pub fn passed_turn(v: View, h: Header, frame: &[u8], reply: &mut [u8]) -> Turn
    ensures value { result ≡ passed_turn v h frame.now (length reply.old) }
    ensures reply_after { reply.new ≡ passed_buffer v h frame.now reply.old }
{
    let d = decide(v, h, frame);
    send_turn(write(v.own, h, d.reply, &[], reply), d)
}

// Whether a login stands at a seat, and its flag says that it is unproven.
// kept: proven is the stored flag of the C interface, and the contract speaks of any number
#[tactic(auto, unfolding(crate::specs::Turn::unproven_at))]
pub fn unproven_at(seat: Option<usize>, proven: u8) -> bool
    ensures { result ≡ unproven_at seat proven }
{
    seat.is_some() && proven != 1
}

// What the next frame out of the exchange of an address and an OX_ID comes to, seen by the port at that address: refused by the first of 2, 9, 7, 10 that fits.
#[tactic(auto, using(crate::proofs::Ways::turn_served), unfolding(crate::specs::Turn::next_out_turn, crate::specs::Turn::next_out_buffer))]
pub fn next_turn(
    v: View,
    address: u32,
    ox_id: u16,
    start: u64,
    window: &[u8],
    reply: &mut [u8],
) -> Turn
    ensures value { result ≡ next_out_turn v address ox_id start window.now (length reply.old) }
    ensures reply_after { reply.new ≡ next_out_buffer v address ox_id start window.now reply.old }
{
    if v.fine {
        next(v, address, ox_id, start, window, reply)
    } else {
        refuse_turn(Refusal::IllFormed)
    }
}

// The change of every login that an event is.
pub fn change_of(e: Event) -> Change
    ensures { result ≡ change_of e }
{
    match e {
        Event::LoopReset => Change::Unprove,
        Event::TimeOver => Change::EndUnproven,
        Event::PowerOn => Change::EndAll,
    }
}

// The drive that is all zeros, which stands beside a refused setup; it is not well formed.
#[tactic(auto, unfolding(crate::specs::Drive::made_from, crate::specs::Drive::no_drive))]
pub fn no_drive() -> Drive
    ensures { result ≡ no_drive }
{
    Drive::from(Setup {
        capacity: 0,
        address: 0,
        identity: [0; 28],
        accept: [0; 112],
        writable: 0,
    })
}

// A frame in, refused by the first of 2 to 7 that fits it, or passed.
#[tactic(auto, unfolding(crate::specs::Turn::arrived_in))]
fn arrived(v: View, h: Header, frame: &[u8]) -> Result<Form, Refusal>
    ensures { result ≡ arrived_in v h frame.now }
{
    let unproven = unproven_at(v.seat, v.login.proven);
    judge(v.fine, unproven, v.own.address, h, frame)
}

// What a frame in that arrived well comes to, seen by its sender, with a window that starts at a block.
#[tactic(auto, using(crate::proofs::Ways::comes_data, crate::proofs::Ways::comes_other))]
fn arrived_turn(
    v: View,
    h: Header,
    frame: &[u8],
    start: u64,
    window: &mut [u8],
    reply: &mut [u8],
) -> Turn
    ensures value { result ≡ arrived_turn v h frame.now start (length window.old) (length reply.old) }
    ensures reply_after { reply.new ≡ arrived_buffer v h frame.now start (length window.old) reply.old }
    ensures window_after { window.new ≡ arrived_window v h frame.now start window.old }
{
    if h.r_ctl == DATA {
        data_turn(v, h, frame, start, window, reply)
    } else {
        passed_turn(v, h, frame, reply)
    }
}

// What a frame that arrived well is answered, and what changes; a data frame has a turn of its own.
// kept: a match picks the step, since each arm hands on other values
#[tactic(auto, unfolding(crate::specs::Turn::decision_of))]
fn decide(v: View, h: Header, frame: &[u8]) -> Decision
    ensures { result ≡ decision_of v h frame.now }
{
    match form_of(h.r_ctl) {
        Form::Link => link(v, h, frame),
        Form::Done => answer_only(Reply::Nothing),
        Form::Abort => abts(v, h),
        Form::Command => command(v, h, frame),
        Form::Data => answer_only(Reply::Nothing),
    }
}

// A drive with no logins, of a setup whose rules are the caller's to test.
impl From<Setup> for Drive {
    ghost from_gives = { λ s d. d ≡ made_from s };

    #[tactic(auto, unfolding(crate::specs::Drive::made_from))]
    fn from(s: Setup) -> Drive {
        let identity = s.identity;
        let accept = s.accept;
        let l = empty_login();
        Drive {
            unit: Unit {
                capacity: s.capacity,
                identity,
                writable: s.writable,
            },
            port: Port {
                address: s.address,
                accept,
                logins: [l; 8],
            },
        }
    }
}
