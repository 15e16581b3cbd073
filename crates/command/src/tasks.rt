// What the task flags of an FCP_CMND ask for (document 01, "Commands").
#![tactic(auto, unfolding(crate::specs::Cmnd::malformed, crate::specs::Cmnd::task_for, crate::specs::Cmnd::task_of))]

ghost use Rattle.std.specs.Prelude.{◌≡◌};
ghost use Rattle.command.specs.Cmnd.{low_bit, read_bit, malformed, on_unit, task_for, task_of};

use crate::{Cmnd, CmndFault, Task};
use state::Change;

// What the task flags ask for, once the size and the data bits are right.
pub(crate) fn task_of(c: Cmnd, length: usize, from: u32) -> Result<Task, CmndFault>
    ensures { result ≡ task_of c length from }
{
    if is_malformed(length, c.read, c.write) {
        return Err(CmndFault::Fields);
    }
    task_for(c.task, c.lun, from)
}

fn is_malformed(length: usize, read: bool, write: bool) -> bool
    ensures { result ≡ malformed length read write }
{
    length != 56 || read && write
}

// Any byte that is not named has a flag of 01h, 08h or 10h, or two flags.
// kept: the flags are numbers, since document 01 names each by its byte; they are told apart here alone
fn task_for(task: u8, lun: u64, from: u32) -> Result<Task, CmndFault>
    ensures { result ≡ task_for task lun from }
{
    match task {
        0x00 => Ok(Task::Execute),
        0x80 | 0x40 => Err(CmndFault::Unsupported),
        0x20 => Ok(Task::Apply(Change::Reset)),
        0x04 => on_unit(lun, Change::Clear(from)),
        0x02 => on_unit(lun, Change::EndExchangesOf(from)),
        _ => Err(CmndFault::Fields),
    }
}

// A task set is that of unit 0 alone.
fn on_unit(lun: u64, e: Change) -> Result<Task, CmndFault>
    ensures { result ≡ on_unit lun e }
{
    if lun != 0 {
        return Err(CmndFault::OtherUnit);
    }
    Ok(Task::Apply(e))
}

pub(crate) fn low_bit(byte: u8) -> bool
    ensures { result ≡ low_bit byte }
{
    byte % 2 == 1
}

pub(crate) fn read_bit(bits: u8) -> bool
    ensures { result ≡ read_bit bits }
{
    bits / 2 % 2 == 1
}
