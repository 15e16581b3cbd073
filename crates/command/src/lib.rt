// What an FCP_CMND answers and what it stores: no paired login, the task flags, and the tests of a command in their order.
// Values are decided here, no byte is written.
#![tactic(auto, unfolding(crate::specs::Cmnd::cmnd_of, crate::specs::Command::refused_with))]

mod opened;
mod tasks;
mod tests;

ghost use Rattle.std.specs.Prelude.{◌≡◌};
ghost use Rattle.state.specs.Tables.{find_exchange};
ghost use Rattle.command.specs.Cmnd.{cmnd_of, code_of};
ghost use Rattle.command.specs.Command.{sense_of, after_check, refused_with, execute_of};
ghost use Rattle.command.specs.Turn.{logged_out_turn, commanded_turn, command_turn};

use calls::{Decision, Served, View, answer_only, change_logins, serve_as, serve_at};
use frame::Header;
use opened::answer;
use reply::{Reply, Response, Sense, sense_with};
use residual::residual_of;
use state::{Change, Login, Unit, end_exchange, find_exchange, set_attention};
use tasks::{low_bit, read_bit, task_of};
use tests::tested;
use wire::{BigEndian, byte_at, part};

// The RSP_CODE of a task that is done.
const DONE: u8 = 0x00;

// The fields of an FCP_CMND.
#[derive(Clone, Copy)]
pub struct Cmnd {
    pub lun: u64,
    pub task: u8,
    // what the host says of its data: that it reads, that it writes
    pub read: bool,
    pub write: bool,
    pub cdb: [u8; 16],
    // FCP_DL
    pub expected: u32,
}

// Blocks of the unit: the first, and how many, as many as two bytes can tell.
#[derive(Clone, Copy)]
pub struct Range {
    pub start: u64,
    pub blocks: u16,
}

// What a CDB asks for, by its operation code; REQUEST SENSE and INQUIRY with the bytes that they allow (byte 4).
#[derive(Clone, Copy)]
pub enum Operation {
    TestUnitReady,
    RequestSense(u8),
    Inquiry(u8),
    ReadCapacity,
    Read(Range),
    Write(Range),
    Unknown,
}

// What the task flags ask for: a change of the logins, or the command of the CDB.
#[derive(Clone, Copy)]
pub enum Task {
    Apply(Change),
    Execute,
}

// Why an FCP_CMND is answered with an RSP_CODE alone: its size, data bits or task flags; a task that the drive does not do; a task for another unit.
#[derive(Clone, Copy)]
pub enum CmndFault {
    Fields,
    Unsupported,
    OtherUnit,
}

// The test of a command that fails first, 1 to 7; test 3 with the attention that stands.
#[derive(Clone, Copy)]
pub enum Check {
    OpenExchange,
    OtherUnit,
    Attention(u8),
    UnknownCode,
    Protected,
    WrongField,
    Outside,
}

// An FCP_CMND: without a paired login a drive LOGO, and the login ends.
#[tactic(auto, unfolding(crate::specs::Turn::command_turn))]
pub fn command(v: View, h: Header, frame: &[u8]) -> Decision
    ensures { result ≡ command_turn v h frame.now }
{
    match v.seat {
        Some(i) if v.login.paired == 1 => {
            commanded(v.unit, i, v.login, h, Cmnd::read(frame), frame.len())
        }
        _ => logged_out(h.s_id),
    }
}

fn logged_out(from: u32) -> Decision
    ensures { result ≡ logged_out_turn from }
{
    change_logins(Reply::Logout, Change::EndLogin(from))
}

// An FCP_CMND from the paired login l at place i, in a frame of this length.
// kept: a match picks the step, since each arm hands on other values
#[tactic(auto, unfolding(crate::specs::Turn::commanded_turn))]
fn commanded(u: Unit, i: usize, l: Login, h: Header, c: Cmnd, length: usize) -> Decision
    ensures { result ≡ commanded_turn u i l h c length }
{
    match task_of(c, length, h.s_id) {
        Ok(Task::Execute) => serve_at(i, execute(u, l, h.ox_id, c)),
        Ok(Task::Apply(e)) => change_logins(Reply::Respond(Response::Code(DONE)), e),
        Err(fault) => answer_only(Reply::Respond(Response::Code(fault.code()))),
    }
}

impl Cmnd {
    // The fields, each from its place in the frame; a byte past the end counts as 0.
    fn read(frame: &[u8]) -> Cmnd
        ensures { result ≡ cmnd_of frame.now }
    {
        let bits = byte_at(frame, 35);
        Cmnd {
            lun: u64::read(frame, 24),
            task: byte_at(frame, 34),
            read: read_bit(bits),
            write: low_bit(bits),
            cdb: part(frame, 36),
            expected: u32::read(frame, 52),
        }
    }
}

// A command on its sender's login: test 1, that its OX_ID is not open, and what the other tests make of it.
// kept: a match picks the step, since each arm hands on other values
#[tactic(auto, unfolding(crate::specs::Command::execute_of))]
fn execute(u: Unit, l: Login, ox_id: u16, c: Cmnd) -> Served
    ensures { result ≡ execute_of u l (find_exchange l ox_id) ox_id c }
{
    if let Some(j) = find_exchange(l, ox_id) {
        return refuse(end_exchange(l, j), Check::OpenExchange, c.expected);
    }
    match tested(u, l.attention, ox_id, c) {
        Ok(e) => answer(l, c, e),
        Err(check) => refuse(l, check, c.expected),
    }
}

// CHECK CONDITION with the sense of a test; nothing is wanted then.
fn refuse(l: Login, check: Check, expected: u32) -> Served
    ensures { result ≡ refused_with l check expected }
{
    let refused = Response::Check(Sense::from(check), residual_of(0, expected));
    serve_as(Reply::Respond(refused), check.after(l))
}

impl CmndFault {
    // Its RSP_CODE.
    fn code(self) -> u8
        ensures { result ≡ code_of self }
    {
        match self {
            CmndFault::Fields => 0x02,
            CmndFault::Unsupported => 0x04,
            CmndFault::OtherUnit => 0x05,
        }
    }
}

impl Check {
    // The login after it: an attention is cleared as it is reported.
    fn after(self, l: Login) -> Login
        ensures { result ≡ after_check self l }
    {
        match self {
            Check::Attention(_) => set_attention(l, Login::NO_ATTENTION),
            _ => l,
        }
    }
}

// The sense that a failed test is reported with.
// kept: key and code are numbers, since document 01 names each by its byte; they stand here alone
impl From<Check> for Sense {
    ghost from_gives = { λ check s. s ≡ sense_of check };

    fn from(check: Check) -> Sense {
        match check {
            Check::OpenExchange => sense_with(0x0b, 0x4e),
            Check::OtherUnit => sense_with(0x05, 0x25),
            Check::Attention(code) => sense_with(0x06, code),
            Check::UnknownCode => sense_with(0x05, 0x20),
            Check::Protected => sense_with(0x07, 0x27),
            Check::WrongField => sense_with(0x05, 0x24),
            Check::Outside => sense_with(0x05, 0x21),
        }
    }
}
