// The C boundary: a call sees what it needs of the lent drive, decides on that, and what changes is stored where it stands; include/jhartupal.h declares it.
#![tactic(auto)]

ghost use Rattle.std.specs.Prelude.{◌≡◌, ◌≤◌, ◌&&◌, false, not, eqb, length};
ghost use Rattle.tables.specs.Lists.{on_found};
ghost use Rattle.state.specs.declared.Change.TheVariants.{EndHost};
ghost use Rattle.drive.specs.declared.Event.TheVariants.{LoopReset, TimeOver, PowerOn};
ghost use Rattle.state.specs.Tables.{login_in};
ghost use Rattle.calls.specs.Turn.{stored_at, AtBelow};
ghost use Rattle.calls.specs.View.{sight_of};
ghost use Rattle.drive.specs.Drive.{event_answer};
ghost use Rattle.drive.specs.Turn.{unproven_at};
ghost use Rattle.drive.specs.Entry.{frame_in, frame_in_buffer, frame_in_window, next_frame, next_frame_buffer};
ghost use Rattle.boundary.specs.Boundary.{code_of, Tells, Gives, make_answer, is_data_form};
ghost use Rattle.boundary.specs.Settled.{reaches, marks_of, spared_marks, reached_of, settled_of, happened_said, happened_of};

use arrival::{Form, judge};
use calls::{Sight, Turn, seat_of, see, sight_of};
use drive::{Answer, Drive, Event, change_of, passed_turn, unproven_at};
use formed::{Key, key_named};
use frame::{Header, read_header};
use refusal::Refusal;
use state::{Change, Login, Own, Port, Setup, changed};
use window::{Window, data_turn, next_turn_from};

// Makes a drive in the lent state, from a setup.
// kept: a number for a result, and address and ox_id, block and window side by side, in each of these six, since include/jhartupal.h has them so (C interface)
pub fn jhartupal_make(d: &mut Drive, setup: &Setup) -> u64
    ensures { Tells (make_answer d.old setup.now) result d.new }
{
    let a = make(*d, *setup);
    *d = a.drive;
    code(a.said)
}

// A frame in, with a window for the data of a WRITE.
pub fn jhartupal_frame(
    d: &mut Drive,
    frame: &[u8],
    start: u64,
    window: &mut [u8],
    reply: &mut [u8],
) -> u64
    ensures { Tells (frame_in d.old frame.now start window.old (length reply.old)) result d.new
        × (reply.new ≡ frame_in_buffer d.old frame.now start window.old reply.old)
        × (window.new ≡ frame_in_window d.old frame.now start window.old (length reply.old)) }
{
    code(frame_in(d, frame, start, window, reply))
}

// The next frame out of an exchange, from a window.
pub fn jhartupal_next(
    d: &mut Drive,
    address: u32,
    ox_id: u16,
    start: u64,
    window: &[u8],
    reply: &mut [u8],
) -> u64
    ensures { Tells (next_frame d.old address ox_id start window.now (length reply.old)) result d.new
        × (reply.new ≡ next_frame_buffer d.old address ox_id start window.now reply.old) }
{
    code(next_frame(d, address, ox_id, start, window, reply))
}

// The loop was reset.
// kept: a function for each event, since the C interface names each
pub fn jhartupal_loop_reset(d: &mut Drive) -> u64
    ensures { Tells (event_answer d.old LoopReset) result d.new }
{
    event(d, Event::LoopReset)
}

// The verification time is over.
pub fn jhartupal_time_over(d: &mut Drive) -> u64
    ensures { Tells (event_answer d.old TimeOver) result d.new }
{
    event(d, Event::TimeOver)
}

// The drive powers on.
pub fn jhartupal_power_on(d: &mut Drive) -> u64
    ensures { Tells (event_answer d.old PowerOn) result d.new }
{
    event(d, Event::PowerOn)
}

// The drive made, or refusal 8 and the drive as it was.
fn make(d: Drive, setup: Setup) -> Answer
    ensures { result ≡ make_answer d setup }
{
    let a = Drive::new(setup);
    match a.said {
        Ok(_) => a,
        Err(x) => d.refuse(x),
    }
}

// A frame in, refused by the first of 1 to 7 that fits it, or what it comes to. No login is copied for a frame that one of these refuses.
fn frame_in(
    d: &mut Drive,
    frame: &[u8],
    start: u64,
    window: &mut [u8],
    reply: &mut [u8],
) -> Result<usize, Refusal>
    ensures { Gives (frame_in d.old frame.now start window.old (length reply.old)) result d.new
        × (reply.new ≡ frame_in_buffer d.old frame.now start window.old reply.old)
        × (window.new ≡ frame_in_window d.old frame.now start window.old (length reply.old)) }
{
    if reply.len() < Header::MOST_FRAME {
        return Err(Refusal::ShortBuffer);
    }
    let h = read_header(frame);
    let s = sight_of(d.unit, &d.port);
    let seat = seat_of(s.keys, h.s_id);
    let unproven = is_unproven(&d.port, seat);
    let form = judge(s.fine, unproven, d.port.address, h, frame)?;
    let at = seat.unwrap_or(0);
    let v = see(d.unit, Own::from(&d.port), s, seat, d.port.logins[at]);
    if is_data(form) {
        let t = data_turn(v, h, frame, start, window, reply);
        store(&mut d.port, t)
    } else {
        let t = passed_turn(v, h, frame, reply);
        settle(&mut d.port, s.keys, t)
    }
}

// Whether it is a data frame, which has a turn of its own.
fn is_data(form: Form) -> bool
    ensures { result ≡ is_data_form form }
{
    matches!(form, Form::Data)
}

// The next frame out of an exchange, or why there is none.
fn next_frame(
    d: &mut Drive,
    address: u32,
    ox_id: u16,
    start: u64,
    window: &[u8],
    reply: &mut [u8],
) -> Result<usize, Refusal>
    ensures { Gives (next_frame d.old address ox_id start window.now (length reply.old)) result d.new
        × (reply.new ≡ next_frame_buffer d.old address ox_id start window.now reply.old) }
{
    if reply.len() < Header::MOST_FRAME {
        return Err(Refusal::ShortBuffer);
    }
    let s = sight_of(d.unit, &d.port);
    let w = Window {
        start,
        bytes: window,
    };
    next_seen(d, s, address, ox_id, w, reply)
}

// What a call for the next frame comes to, once the logins were looked at and where the buffer has room.
// Out of line, so that its stack and that of the look at the logins are not there at once, and a buffer too short costs no memory cleared for the rest.
#[inline(never)]
fn next_seen<'a>(
    d: &mut Drive,
    s: Sight,
    address: u32,
    ox_id: u16,
    w: Window<'a>,
    reply: &mut [u8],
) -> Result<usize, Refusal>
    requires room { 2136 ≤ length reply.old }
    requires seen { s ≡ sight_of d.old.unit d.old.port }
    ensures { Gives (next_frame d.old address ox_id w.entry.start w.entry.bytes.now (length reply.old)) result d.new
        × (reply.new ≡ next_frame_buffer d.old address ox_id w.entry.start w.entry.bytes.now reply.old) }
{
    let seat = seat_of(s.keys, address);
    let at = seat.unwrap_or(0);
    let v = see(d.unit, Own::from(&d.port), s, seat, d.port.logins[at]);
    let t = next_turn_from(v, address, ox_id, w, reply);
    store(&mut d.port, t)
}

// An event, told in one number.
fn event(d: &mut Drive, e: Event) -> u64
    ensures { Tells (event_answer d.old e) result d.new }
{
    let s = sight_of(d.unit, &d.port);
    code(happen(&mut d.port, s, change_of(e)))
}

// Every login that is seen changes where it stands, or refusal 2 and the port stays as it was.
fn happen(p: &mut Port, s: Sight, c: Change) -> Result<usize, Refusal>
    ensures { (result ≡ happened_said s.fine) × (p.new ≡ happened_of p.old s c) }
{
    if !s.fine {
        return Err(Refusal::IllFormed);
    }
    reach(p, &s.keys, c, None);
    Ok(0)
}

// Whether the login at a seat is unproven; where there is none it is not.
fn is_unproven(p: &Port, seat: Option<usize>) -> bool
    requires { AtBelow seat }
    ensures { result ≡ unproven_at seat (login_in p.now seat).proven }
{
    let logins: &[Login] = &p.logins;
    match seat {
        Some(i) => unproven_at(seat, logins[i].proven),
        None => false,
    }
}

// Stores what a turn changes, each login where it stands, and tells what was said. The keys are those of the logins. The place that is stored last is not changed before.
// kept: keys beside the port, here and in reach, for the reason at `Sight`
fn settle(p: &mut Port, keys: [Key; 8], t: Turn) -> Result<usize, Refusal>
    ensures { (result ≡ t.said) × (p.new ≡ settled_of p.old keys t) }
{
    reach(p, &keys, t.change, t.at);
    store(p, t)
}

// Stores the login of a turn at its place, if it has one, and tells what was said.
fn store(p: &mut Port, t: Turn) -> Result<usize, Refusal>
    ensures { (result ≡ t.said) × (p.new ≡ stored_at t.at t.login p.old) }
{
    let logins: &mut [Login] = &mut p.logins;
    match t.at {
        Some(i) if i < Port::LOGINS => logins[i] = t.login,
        _ => {}
    }
    t.said
}

// Changes the logins that a change reaches, by their keys, each where it stands, but for that at the place that is spared.
fn reach(p: &mut Port, keys: &[Key; 8], c: Change, spared: Option<usize>)
    ensures { p.new ≡ reached_of p.old (spared_marks (marks_of c keys.now) spared) c }
{
    let logins: &mut [Login] = &mut p.logins;
    let keys: &[Key] = keys;
    for (i, k) in keys.iter().enumerate() {
        if is_touched(*k, c, i, spared) {
            logins[i] = changed(logins[i], c);
        }
    }
}

// Whether a change reaches the login at a place, by its key, and the place is not the one that is spared.
fn is_touched(k: Key, c: Change, i: usize, spared: Option<usize>) -> bool
    ensures { result ≡ (not (on_found spared (λ j. eqb j i) false) && reaches c k) }
{
    match spared {
        Some(j) => j != i && is_reached(k, c),
        None => is_reached(k, c),
    }
}

// Whether a change reaches a login of this key; the others stay as they are.
// kept: a match, as `reaches` has it, since each change looks at another part of the key
fn is_reached(k: Key, c: Change) -> bool
    ensures { result ≡ reaches c k }
{
    match c {
        Change::Keep => false,
        Change::EndAll => k.id != 1,
        Change::EndLogin(address) => k.id == 2 + address as u64,
        Change::EndHost(address, name) => of_host(k, address, name),
        Change::Unprove => k.id != 1,
        Change::EndUnproven => k.id != 1,
        Change::EndExchangesOf(address) => k.id == 2 + address as u64,
        Change::Reset => k.id != 1,
        Change::Clear(_) => k.id != 1,
    }
}

// Whether a key is of a login of this address or this port name.
fn of_host(k: Key, address: u32, name: u64) -> bool
    ensures { result ≡ reaches (EndHost address name) k }
{
    k.id == 2 + address as u64 || key_named(k, name)
}

// The reply's length, or 65,536 plus the refusal's number.
// kept: one number for a result, and no From, since the types are of other crates; C takes it so
fn code(s: Result<usize, Refusal>) -> u64
    ensures { result ≡ code_of s }
{
    match s {
        Ok(n) => n as u64,
        Err(x) => 65536 + (x.number() as u64),
    }
}
