// Whether an exchange is one that an accepted command could open, with what is sent of it, and the numbers of a login's exchanges (document 01, "Well formed").
#![tactic(auto, unfolding(crate::specs::Formed::blocks_fit, crate::specs::Formed::direction_fits, crate::specs::Formed::made_fits, crate::specs::Formed::wanted_fits, crate::specs::Formed::taken_fits, crate::specs::Formed::moved_fits, crate::specs::Formed::exchange_fine, crate::specs::Keys::exchange_number))]

ghost use Rattle.std.specs.Prelude.{◌≡◌, ◌<◌, map};
ghost use Rattle.formed.specs.Formed.{full_frame, total, blocks_fit, made_wants, made_fits, direction_fits, wanted_fits, frames_of, sent_fits, taken_fits, moved_fits, exchange_fine};
ghost use Rattle.formed.specs.Keys.{exchange_number};

use crate::numbers::number_of;
use frame::Header;
use state::{Exchange, Login, Unit, is_closed};

// The bytes of a full data frame to a login of this W18 size.
pub fn full_frame(size: u16) -> u32
    ensures { result ≡ full_frame size }
{
    u32::from(size).min(Header::MOST_DATA as u32)
}

// The bytes that an exchange sends in all.
pub fn total_of(e: Exchange) -> u32
    ensures { result ≡ total e }
{
    e.wanted.min(e.expected)
}

fn blocks_fit(u: Unit, e: Exchange) -> bool
    ensures { result ≡ blocks_fit u e }
{
    let blocks = u64::from(e.blocks);
    (1..=Exchange::MOST_BLOCKS).contains(&blocks)
        && u64::from(e.wanted) == 512 * blocks
        && e.start < u.capacity
        && blocks <= u.capacity - e.start
}

// Data come from the host only of blocks, and where the unit may be written.
fn direction_fits(u: Unit, e: Exchange) -> bool
    ensures { result ≡ direction_fits u e }
{
    e.direction == Exchange::TO_HOST
        || e.direction == Exchange::FROM_HOST && e.kind == Exchange::BLOCKS && u.writable == 1
}

// What a command of the exchange's kind wants of made data.
fn made_wants(e: Exchange) -> bool
    ensures { result ≡ made_wants e }
{
    match e.kind {
        0..=Exchange::INQUIRY_OTHER_UNIT => (1..=36).contains(&e.wanted),
        Exchange::READ_CAPACITY => e.wanted == 8,
        Exchange::SENSE_NONE..=Exchange::SENSE_OTHER_UNIT => (1..=18).contains(&e.wanted),
        _ => false,
    }
}

fn made_fits(e: Exchange) -> bool
    ensures { result ≡ made_fits e }
{
    e.start == 0 && e.blocks == 0 && made_wants(e)
}

fn wanted_fits(u: Unit, e: Exchange) -> bool
    ensures { result ≡ wanted_fits u e }
{
    if e.kind == Exchange::BLOCKS {
        blocks_fit(u, e)
    } else {
        made_fits(e)
    }
}

// Of a WRITE: what the host sent, and whether data are awaited.
fn taken_fits(e: Exchange) -> bool
    ensures { result ≡ taken_fits e }
{
    let all = total_of(e);
    let awaits = match e.awaited {
        0 => e.sent == all || e.sent % Exchange::MOST_BURST == 0,
        1 => e.sent < all,
        _ => false,
    };
    e.sent <= all && awaits && e.count == 0
}

// What the exchanges of a login are held against: the unit, the bytes of a full data frame to the login, of which there are some, and whether it is paired.
#[derive(Clone, Copy)]
pub(crate) struct Terms {
    pub unit: Unit,
    pub full: u32,
    // kept: paired is the stored flag of the C interface, and `exchange_fine` speaks of any number
    pub paired: u8,
    ghost some: { 0 < full },
}

impl Terms {
    // The data frames that carry what was sent.
    #[tactic(auto, using(crate::proofs::Advance::frames_ceil))]
    fn frames_of(self, e: Exchange) -> u32
        ensures { result ≡ frames_of e.sent self.full }
    {
        e.sent.div_ceil(self.full)
    }

    // The machine divides once for the frames and for what is left past full ones.
    #[tactic(auto, unfolding(crate::specs::Formed::sent_fits))]
    fn sent_fits(self, e: Exchange) -> bool
        ensures { result ≡ sent_fits self.full e }
    {
        let all = total_of(e);
        e.sent <= all
            && (e.sent == all || e.sent % self.full == 0)
            && u32::from(e.count) == self.frames_of(e) % 65536
    }

    // What was sent so far, by the host of a WRITE, else by the drive.
    fn moved_fits(self, e: Exchange) -> bool
        ensures { result ≡ moved_fits self.full e }
    {
        if e.direction == Exchange::FROM_HOST {
            taken_fits(e)
        } else {
            e.awaited == 0 && self.sent_fits(e)
        }
    }

    fn exchange_fine(self, e: Exchange) -> bool
        ensures { result ≡ exchange_fine self.unit self.full self.paired e }
    {
        is_closed(e)
            || self.paired == 1
                && 1 <= e.expected
                && wanted_fits(self.unit, e)
                && direction_fits(self.unit, e)
                && self.moved_fits(e)
    }

    // An exchange is known by its OX_ID alone, so that a number says all that a key would.
    fn number(self, e: Exchange) -> u64
        ensures { result ≡ exchange_number self.unit self.full self.paired e }
    {
        number_of(self.exchange_fine(e), is_closed(e), u32::from(e.ox_id))
    }

    // The numbers of a login's exchanges.
    // kept: a `for` and no `map` of the array, by which the test of a full drive took 1,087 ns in place of 725.
    pub(crate) fn numbers(self, t: [Exchange; 8]) -> [u64; 8]
        ensures { result ≡ map (exchange_number self.unit self.full self.paired) t }
    {
        let mut numbers = [0u64; 8];
        for i in 0..Login::PLACES {
            numbers[i] = self.number(t[i]);
        }
        numbers
    }
}
