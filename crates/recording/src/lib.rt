// What the program recorder makes of a record: the call that it is, told to the drive, and the bytes of the answer.
#![tactic(auto)]

mod lines;

ghost use Rattle.std.specs.Prelude.{◌≡◌, ◌≤◌, ◌&&◌, leb, length, unwrap_or};
ghost use Rattle.std.specs.Bool.{then_some};
ghost use Rattle.drive.specs.Entry.{frame_in_window};
ghost use Rattle.wire.specs.Bytes.{num};
ghost use Rattle.recording.specs.Calls.{unmade, setup_in, no_call, made_by, fill, told_answer, handed, asked, happened, setup_call, frame_call, next_call, event_call, read_by, window_from, is_data_call, data_call, data_after, told_by, body_after, rest_of};

use drive::{Answer, Drive, Event, no_drive};
use lines::{line_of, written};
use saying::Text;
use state::Setup;
use window::next_frame;
use wire::{BigEndian, byte_at, part, put_front};

// The drive of a session, once one was made; until then the drive that is all zeros.
// kept: no Option of a drive, since vectors calls the drive that is all zeros too, before one is made
#[derive(Clone, Copy)]
pub struct Session {
    pub made: bool,
    pub drive: Drive,
}

// The bytes of an answer: at most 4,096 of a reply, and four around them.
pub type Line = Text<4100>;

// The byte of which a buffer is full when it is lent.
const FILL: u8 = 0x5a;

// What a record is answered, and the session after it.
#[derive(Clone, Copy)]
pub struct Told {
    pub session: Session,
    pub line: Line,
}

// A session in which no drive was made yet.
#[tactic(auto, unfolding(crate::specs::Calls::unmade))]
pub fn start() -> Session
    ensures { result ≡ unmade }
{
    Session {
        made: false,
        drive: no_drive(),
    }
}

// The record of a letter and a body: S makes a drive, F hands it a frame, D a frame and a window, N asks it for the next one, E tells it of an event; any other is no call.
// Of the body only the window of D may change.
#[tactic(auto, using(crate::proofs::Data::data_fits), unfolding(crate::specs::Calls::told_by, crate::specs::Calls::body_after))]
pub fn tell(s: Session, letter: u8, body: &mut [u8]) -> Told
    ensures told_is { result ≡ told_by s letter body.old }
    ensures body_after { body.new ≡ body_after s letter body.old }
{
    if is_data_call(s, letter, body) {
        tell_data(s, body)
    } else {
        tell_read(s, letter, body)
    }
}

// From where on the body, after the call, follows the answer: of D the window, of any other nothing.
#[tactic(auto, using(crate::proofs::Data::data_fits), unfolding(crate::specs::Calls::rest_of))]
pub fn rest_of(s: Session, letter: u8, body: &[u8]) -> usize
    ensures { (result ≡ rest_of s letter body.now) × (result ≤ length body.now) }
{
    if is_data_call(s, letter, body) {
        window_from(body)
    } else {
        body.len()
    }
}

// The letters whose body is only read.
#[tactic(auto, unfolding(crate::specs::Calls::read_by))]
fn tell_read(s: Session, letter: u8, body: &[u8]) -> Told
    ensures { result ≡ read_by s letter body.now }
{
    call_read(s, letter, body).unwrap_or_else(|| no_call(s))
}

// What their calls are told; nothing where it is no call.
// kept: letters and the numbers of events are matched as the record's format writes them, and name no type of their own
#[tactic(auto, unfolding(crate::specs::Calls::read_by))]
fn call_read(s: Session, letter: u8, body: &[u8]) -> Option<Told>
    ensures { unwrap_or result (no_call s) ≡ read_by s letter body.now }
{
    match letter {
        b'S' => tell_setup(s, body),
        b'F' => tell_frame(s, body),
        b'N' => tell_next(s, body),
        b'E' => tell_event(s, body),
        _ => None,
    }
}

// What is no call: 255, and the session as it was.
#[tactic(auto, unfolding(crate::specs::Calls::no_call))]
pub fn no_call(s: Session) -> Told
    ensures { result ≡ no_call s }
{
    Told {
        session: s,
        line: written(255, &[], true),
    }
}

#[tactic(auto, unfolding(crate::specs::Calls::setup_call))]
fn tell_setup(s: Session, body: &[u8]) -> Option<Told>
    ensures { unwrap_or result (no_call s) ≡ setup_call s body.now }
{
    let setup = body.get(..153)?;
    Some(made(s, Drive::new(setup_in(setup))))
}

// The room that is named at a place, where the body has as many bytes as stand before what is handed on, the room is none over 4,096, and a drive was made.
fn room_at(s: Session, body: &[u8], before: usize, at: u16) -> Option<usize>
    ensures { result ≡ then_some (leb before (length body.now) && leb (num 2 body.now at) 4096 && s.made) (num 2 body.now at) }
{
    let room = u16::read(body, at) as usize;
    (before <= body.len() && room <= 4096 && s.made).then_some(room)
}

#[tactic(auto, unfolding(crate::specs::Calls::frame_call))]
fn tell_frame(s: Session, body: &[u8]) -> Option<Told>
    ensures { unwrap_or result (no_call s) ≡ frame_call s body.now }
{
    let room = room_at(s, body, 2, 0)?;
    Some(hand_frame(s, room, &body[2..], 0, &mut []))
}

// Whether a record is a call of D: what stands before its window is there, its room is none over 4,096, and a drive was made.
#[tactic(auto, unfolding(crate::specs::Calls::is_data_call))]
fn is_data_call(s: Session, letter: u8, body: &[u8]) -> bool
    ensures { result ≡ is_data_call s letter body.now }
{
    letter == b'D' && room_at(s, body, 12, 0).is_some() && window_from(body) <= body.len()
}

// Where the window of a D begins.
#[tactic(auto, unfolding(crate::specs::Calls::window_from))]
fn window_from(body: &[u8]) -> usize
    ensures { result ≡ window_from body.now }
{
    12 + u16::read(body, 10) as usize
}

// A call of D. The frame is copied, since it and the window are parts of one lent slice.
#[tactic(auto, unfolding(crate::specs::Calls::window_from))]
fn tell_data(s: Session, body: &mut [u8]) -> Told
    requires body_in_bounds { window_from body.old ≤ length body.old }
    requires body_bound { num 2 body.old 0 ≤ 4096 }
    ensures told_is { result ≡ data_call s body.old }
    ensures body_after { body.new ≡ data_after s body.old }
{
    let n = u16::read(body, 10) as usize;
    let at = 12 + n;
    let mut frame = [0u8; 65535];
    put_front(&mut frame, &body[12..at]);
    hand_frame(
        s,
        u16::read(body, 0) as usize,
        &frame[..n],
        u64::read(body, 2),
        &mut body[at..],
    )
}

#[tactic(auto, unfolding(crate::specs::Calls::next_call))]
fn tell_next(s: Session, body: &[u8]) -> Option<Told>
    ensures { unwrap_or result (no_call s) ≡ next_call s body.now }
{
    let room = room_at(s, body, 16, 6)?;
    Some(ask_next(
        s,
        u32::read(body, 0),
        u16::read(body, 4),
        room,
        u64::read(body, 8),
        &body[16..],
    ))
}

#[tactic(auto, unfolding(crate::specs::Calls::event_call))]
fn tell_event(s: Session, body: &[u8]) -> Option<Told>
    ensures { unwrap_or result (no_call s) ≡ event_call s body.now }
{
    let event = match body {
        [1, ..] => Event::LoopReset,
        [2, ..] => Event::TimeOver,
        [3, ..] => Event::PowerOn,
        _ => return None,
    };
    s.made.then(|| happen(s, event))
}

// A drive made, or refused and the session as it was.
#[tactic(auto, unfolding(crate::specs::Calls::made_by))]
fn made(s: Session, a: Answer) -> Told
    ensures { result ≡ made_by s a }
{
    let after = match a.said {
        Ok(_) => Session {
            made: true,
            drive: a.drive,
        },
        Err(_) => s,
    };
    Told {
        session: after,
        line: line_of(a.said, &[]),
    }
}

// A frame in, with this room for the reply and a window that starts at a block.
// kept: ask_next differs in the call alone; one function that takes the call as a closure was tried: it is as long as either, promises only some answer and buffer that the closure may give, and `search` found no proof of it or of the two
#[tactic(auto, using(crate::proofs::Laws::told_lent), unfolding(crate::specs::Calls::handed))]
fn hand_frame(s: Session, room: usize, frame: &[u8], start: u64, window: &mut [u8]) -> Told
    requires { room ≤ 4096 }
    ensures told_is { result ≡ handed s room frame.now start window.old }
    ensures window_after { window.new ≡ frame_in_window s.drive frame.now start window.old room }
{
    let mut space = filled();
    let a = s.drive.frame_in(frame, start, window, &mut space[..room]);
    answered(s, a, &space[..room])
}

// The next frame out, with this room for it.
#[tactic(auto, using(crate::proofs::Laws::told_lent), unfolding(crate::specs::Calls::asked))]
fn ask_next(s: Session, address: u32, ox_id: u16, room: usize, start: u64, window: &[u8]) -> Told
    requires { room ≤ 4096 }
    ensures { result ≡ asked s address ox_id room start window.now }
{
    let mut space = filled();
    let a = next_frame(s.drive, address, ox_id, start, window, &mut space[..room]);
    answered(s, a, &space[..room])
}

// 4,096 bytes, each the fill, of which a call is lent the first.
#[tactic(auto, unfolding(crate::specs::Calls::fill))]
fn filled() -> [u8; 4096]
    ensures { (result ≡ fill 4096) × (4096 ≡ length result) }
{
    [FILL; 4096]
}

#[tactic(auto, unfolding(crate::specs::Calls::happened))]
fn happen(s: Session, e: Event) -> Told
    ensures { result ≡ happened s e }
{
    answered(s, s.drive.event(e), &[])
}

// The drive's answer, and what it left in the buffer that it was lent.
#[tactic(auto, unfolding(crate::specs::Calls::told_answer))]
fn answered(s: Session, a: Answer, lent: &[u8]) -> Told
    requires { length lent.now ≤ 4096 }
    ensures { result ≡ told_answer s a lent.now }
{
    let drive = a.drive;
    Told {
        session: Session { drive, ..s },
        line: line_of(a.said, lent),
    }
}

// The setup of a body of 153 bytes.
fn setup_in(body: &[u8]) -> Setup
    requires { length body.now ≡ 153 }
    ensures { result ≡ setup_in body.now }
{
    Setup {
        capacity: u64::read(body, 0),
        address: u32::read(body, 8),
        identity: part(body, 12),
        accept: part(body, 40),
        writable: byte_at(body, 152),
    }
}
