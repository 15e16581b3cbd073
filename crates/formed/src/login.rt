// Whether a login keeps the rules: its flags, its address, its stored parameters and its exchanges (document 01, "Well formed").
#![tactic(auto, unfolding(crate::specs::Formed::flags_fine, crate::specs::Formed::address_fine, crate::specs::Formed::params_fine, crate::specs::Formed::used_fine))]

ghost use Rattle.std.specs.Prelude.{◌≡◌, ◌&&◌, eqb};
ghost use Rattle.tables.specs.Lists.{all};
ghost use Rattle.state.specs.Changes.{is_closed};
ghost use Rattle.formed.specs.Formed.{params_fine, flags_fine, address_fine, used_fine};

use crate::exchange::{Terms, full_frame};
use crate::numbers::places_fine;
use address::valid_address;
use params::{size_fails, zero_name};
use state::{Login, Unit, all_closed};

fn flags_fine(l: Login) -> bool
    ensures { result ≡ flags_fine l }
{
    l.proven <= 1
        && l.paired <= 1
        && matches!(
            l.attention,
            Login::NO_ATTENTION | Login::RESET | Login::CLEARED
        )
}

fn address_fine(own: u32, l: Login) -> bool
    ensures { result ≡ address_fine own l }
{
    valid_address(l.address) && l.address != own
}

fn params_fine(l: Login) -> bool
    ensures { result ≡ params_fine l }
{
    !zero_name(l.port_name)
        && !zero_name(l.node_name)
        && !size_fails(l.size)
        && l.concurrent != 0
        && l.sequences != 0
}

// Whether a login keeps the rules of a place that is in use. No size that passes is 0, so the last test changes nothing; without it the test of a full drive took 801 ns in place of 699.
pub(crate) fn used_fine(u: Unit, own: u32, l: Login) -> bool
    ensures { result ≡ used_fine u own l }
{
    let full = full_frame(l.size);
    if flags_fine(l) && address_fine(own, l) && params_fine(l) && 0 < full {
        let terms = Terms {
            unit: u,
            full,
            paired: l.paired,
        };
        places_fine(&terms.numbers(l.places))
    } else {
        false
    }
}

// Whether a place that is not in use is free, with no open exchange.
pub(crate) fn free_fine(l: Login) -> bool
    ensures { result ≡ (eqb l.used 0 && all is_closed l.places) }
{
    l.used == 0 && all_closed(l.places)
}
