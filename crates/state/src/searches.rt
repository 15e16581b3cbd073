// Which places are free, and where a login or an exchange stands.
#![tactic(auto, unfolding(crate::specs::Changes::has_address, crate::specs::Changes::has_name, crate::specs::Tables::has_id, crate::specs::Tables::find_exchange, crate::specs::Tables::free_exchange))]

ghost use Rattle.std.specs.Prelude.{◌≡◌};
ghost use Rattle.tables.specs.Lists.{Within, all};
ghost use Rattle.state.specs.Tables.{is_free, has_id, find_exchange, free_exchange};
ghost use Rattle.state.specs.Changes.{has_address, has_name, is_host, is_closed};

use crate::{Exchange, Login};
use wire::name_number;

// Whether a login is used and has this address.
pub(crate) fn has_address(l: Login, address: u32) -> bool
    ensures { result ≡ has_address address l }
{
    l.used == 1 && l.address == address
}

// Whether a login is used and has this port name.
fn has_name(l: Login, name: u64) -> bool
    ensures { result ≡ has_name name l }
{
    l.used == 1 && name_number(l.port_name) == name
}

// Whether a login is of a host with this address or this port name.
// kept: address and name side by side, as `EndHost` and its theorems have them
pub(crate) fn is_host(l: Login, address: u32, name: u64) -> bool
    ensures { result ≡ is_host address name l }
{
    has_address(l, address) || has_name(l, name)
}

// Whether a place for a login is free.
pub fn is_free(l: Login) -> bool
    ensures { result ≡ is_free l }
{
    l.used != 1
}

// Whether an exchange is open and has this OX_ID.
fn has_id(e: Exchange, ox_id: u16) -> bool
    ensures { result ≡ has_id ox_id e }
{
    !is_closed(e) && e.ox_id == ox_id
}

// Whether a place for an exchange is free.
pub fn is_closed(e: Exchange) -> bool
    ensures { result ≡ is_closed e }
{
    e.kind == Exchange::FREE
}

// Whether every place for an exchange is free.
pub fn all_closed(t: [Exchange; 8]) -> bool
    ensures { result ≡ all is_closed t }
{
    t.iter().all(|e| is_closed(*e))
}

// The lowest place of a login whose exchange is open and has this OX_ID.
// kept: Within stands in each search's contract, here and in calls, since an Option has no bound and a place is an index for every caller
pub fn find_exchange(l: Login, ox_id: u16) -> Option<usize>
    ensures { Within (find_exchange l ox_id) 8 result }
{
    place_of(&l, ox_id)
}

// The search itself, of a lent login.
fn place_of(l: &Login, ox_id: u16) -> Option<usize>
    ensures { Within (find_exchange l.now ox_id) 8 result }
{
    l.places.iter().position(|e| has_id(*e, ox_id))
}

// The lowest free place of a login for an exchange.
pub fn free_exchange(l: Login) -> Option<usize>
    ensures { Within (free_exchange l) 8 result }
{
    l.places.iter().position(|e| is_closed(*e))
}
