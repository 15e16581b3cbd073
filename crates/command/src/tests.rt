// The CDB, decoded, and tests 2 to 7 of a command (document 01, "Tests for the rest").
#![tactic(auto, unfolding(crate::specs::Cdb::inquiry_field, crate::specs::Cdb::capacity_field, crate::specs::Cdb::range10, crate::specs::Tests::other_unit, crate::specs::Tests::attends, crate::specs::Tests::protected, crate::specs::Tests::beyond))]

ghost use Rattle.std.specs.Prelude.{◌≡◌};
ghost use Rattle.command.specs.Cdb.{operation_of, range10, inquiry_field, capacity_field, wrong_field};
ghost use Rattle.command.specs.Tests.{skips, other_unit, attends, unknown, protected, beyond, outside, asked_of};

use crate::opened::exchange_for;
use crate::tasks::low_bit;
use crate::{Check, Cmnd, Operation, Range};
use state::{Exchange, Login, Unit};
use wire::BigEndian;

// Tests 2 to 7, the first that fails. The CDB is decoded once, before them: what it asks for, and whether a field that must be zero is not.
// kept: an attention is a number, here and in test 3, as the stored login has it (C interface)
#[tactic(auto, unfolding(crate::specs::Tests::tested_by, crate::specs::Tests::asked_of))]
pub(crate) fn tested(u: Unit, attention: u8, ox_id: u16, c: Cmnd) -> Result<Exchange, Check>
    ensures { result ≡ asked_of u attention ox_id c }
{
    let o = Operation::from(c.cdb);
    let wrong_field = o.has_wrong_field(c.cdb);
    if o.is_for_other_unit(c.lun) {
        return Err(Check::OtherUnit);
    }
    if o.meets_attention(attention) {
        return Err(Check::Attention(attention));
    }
    if o.is_unknown() {
        return Err(Check::UnknownCode);
    }
    if o.is_protected(u) {
        return Err(Check::Protected);
    }
    if wrong_field {
        return Err(Check::WrongField);
    }
    if o.is_outside(u) {
        return Err(Check::Outside);
    }
    Ok(exchange_for(o, attention, ox_id, c))
}

// The one place where operation codes are told apart.
// kept: the codes are numbers, since document 01 names each by its byte; from here on they are an enum
impl From<[u8; 16]> for Operation {
    ghost from_gives = { λ cdb o. o ≡ operation_of cdb };

    #[tactic(auto, unfolding(crate::specs::Cdb::operation_of))]
    fn from(cdb: [u8; 16]) -> Operation {
        match cdb[0] {
            0x00 => Operation::TestUnitReady,
            0x03 => Operation::RequestSense(cdb[4]),
            0x12 => Operation::Inquiry(cdb[4]),
            0x25 => Operation::ReadCapacity,
            0x28 => Operation::Read(Range::of_ten(cdb)),
            0x2a => Operation::Write(Range::of_ten(cdb)),
            _ => Operation::Unknown,
        }
    }
}

impl Operation {
    // Test 2.
    fn is_for_other_unit(self, lun: u64) -> bool
        ensures { result ≡ other_unit self lun }
    {
        !self.skips_two() && lun != 0
    }

    // Test 3.
    fn meets_attention(self, attention: u8) -> bool
        ensures { result ≡ attends self attention }
    {
        !self.skips_two() && attention != Login::NO_ATTENTION
    }

    // INQUIRY and REQUEST SENSE skip tests 2 and 3.
    fn skips_two(self) -> bool
        ensures { result ≡ skips self }
    {
        matches!(self, Operation::RequestSense(_) | Operation::Inquiry(_))
    }

    // Test 4.
    fn is_unknown(self) -> bool
        ensures { result ≡ unknown self }
    {
        matches!(self, Operation::Unknown)
    }

    // Test 5: WRITE(10) on a unit that may not be written.
    fn is_protected(self, u: Unit) -> bool
        ensures { result ≡ protected u self }
    {
        matches!(self, Operation::Write(_)) && u.writable != 1
    }

    // Test 6: a field that must be zero is not.
    fn has_wrong_field(self, cdb: [u8; 16]) -> bool
        ensures { result ≡ wrong_field self cdb }
    {
        match self {
            Operation::Inquiry(_) => inquiry_field(cdb),
            Operation::ReadCapacity => capacity_field(cdb),
            Operation::Read(_) | Operation::Write(_) => low_bit(cdb[1]),
            _ => false,
        }
    }

    // Test 7.
    fn is_outside(self, u: Unit) -> bool
        ensures { result ≡ outside u self }
    {
        match self {
            Operation::Read(r) | Operation::Write(r) => r.is_beyond(u),
            _ => false,
        }
    }
}

fn inquiry_field(cdb: [u8; 16]) -> bool
    ensures { result ≡ inquiry_field cdb }
{
    low_bit(cdb[1]) || cdb[2] != 0
}

fn capacity_field(cdb: [u8; 16]) -> bool
    ensures { result ≡ capacity_field cdb }
{
    u32::read(&cdb, 2) != 0 || low_bit(cdb[8])
}

impl Range {
    // The range of a CDB of ten bytes: address bytes 2-5, count 7-8.
    fn of_ten(cdb: [u8; 16]) -> Range
        ensures { result ≡ range10 cdb }
    {
        Range {
            start: u64::from(u32::read(&cdb, 2)),
            blocks: u16::read(&cdb, 7),
        }
    }

    // Not below the capacity, or past it; by subtraction, so that no sum wraps.
    fn is_beyond(self, u: Unit) -> bool
        ensures { result ≡ beyond u self }
    {
        u.capacity <= self.start || u.capacity - self.start < u64::from(self.blocks)
    }
}
