// Whether a state is well formed: every field is tested, so that any bytes may be handed in.
#![tactic(auto, unfolding(crate::specs::Keys::key_of, crate::specs::Keys::key_named, crate::specs::Keys::apart_key, crate::specs::Keys::keys_of, crate::specs::Keys::fine_by, crate::specs::Formed::setup_of))]

mod exchange;
mod login;
mod numbers;

ghost use Rattle.std.specs.Prelude.{◌≡◌, List, ℕ};
ghost use Rattle.formed.specs.Formed.{setup_rules};
ghost use Rattle.formed.specs.Keys.{key_of, key_named, apart_key, keys_fine, login_key, keys_of, fine_by};

use address::valid_address;
pub use exchange::{full_frame, total_of};
use login::{free_fine, used_fine};
use numbers::{Known, number_of, places_fine};
use params::Params;
use state::{Login, Own, Port, Setup, Unit};
use wire::name_number;

// What a place for a login is known by: `id` is 0 where the place is not fine, 1 where it is free, and from 2 on 2 plus the address of its login;
// `name` is the number of its port name, and 0 where the place is free. The table is read once, for its keys, and the test of each two places is made on these.
// kept: two numbers and no enum, since `all_fine`, `keys_fine` and `key_named` promise an answer for any two, also for a free place that has a name, and an enum would take fewer.
#[derive(Clone, Copy)]
pub struct Key {
    pub id: u64,
    pub name: u64,
}

// Whether a setup keeps its rules.
pub fn setup_rules(s: Setup) -> bool
    ensures { result ≡ setup_rules s }
{
    rules_keep(s.capacity, s.writable, s.address, &s.accept)
}

// The rules of a setup, by the parts of it that they look at, so that none is made of a unit and a port for them.
// kept: writable is the stored number of the C interface, and the parts stand side by side, since a setup has no Own and a unit no address
#[tactic(auto, unfolding(crate::specs::Formed::setup_rules))]
fn rules_keep(capacity: u64, writable: u8, address: u32, accept: &[u8; 112]) -> bool
    ensures { (identity : List ℕ) → result ≡ setup_rules (record { capacity = capacity; address = address; identity = identity; accept = accept.now; writable = writable }) }
{
    (Setup::LEAST_BLOCKS..=Setup::MOST_BLOCKS).contains(&capacity)
        && writable <= 1
        && valid_address(address)
        && Params::read(accept, 0).pass_setup()
}

// Whether a unit and a port whose logins have these keys are well formed.
pub fn all_fine(u: Unit, o: Own, keys: [Key; 8]) -> bool
    ensures { result ≡ fine_by u o keys }
{
    rules_keep(u.capacity, u.writable, o.address, &o.accept) && keys_fine(keys)
}

// The keys of a port's logins.
pub fn login_keys(u: Unit, p: &Port) -> [Key; 8]
    ensures { result ≡ keys_of u p.now }
{
    let mut keys = [Key { id: 0, name: 0 }; 8];
    let logins: &[Login] = &p.logins;
    for i in 0..Port::LOGINS {
        keys[i] = login_key(u, p.address, logins[i]);
    }
    keys
}

// Only a place in use, whose number is from 2 on, has a name.
fn key_of(fine: bool, free: bool, id: u32, name: u64) -> Key
    ensures { result ≡ key_of fine free id name }
{
    let number = number_of(fine, free, id);
    Key {
        id: number,
        name: if number < 2 { 0 } else { name },
    }
}

// Whether a key has this name; 0 is the number of none.
pub fn key_named(k: Key, name: u64) -> bool
    ensures { result ≡ key_named name k }
{
    name != 0 && k.name == name
}

// A login is known by its address and its port name.
impl Known for Key {
    ghost number = { λ k. k.id };

    ghost apart = { apart_key };

    fn number(&self) -> u64 {
        self.id
    }

    fn is_apart(&self, other: &Key) -> bool {
        self.id != other.id && self.name != other.name
    }
}

// Whether these are the keys of a table's places that are all fine, and no two of them known by the same number or the same name.
pub fn keys_fine(t: [Key; 8]) -> bool
    ensures { result ≡ keys_fine t }
{
    places_fine(&t)
}

// The key of a place for a login.
#[tactic(auto, unfolding(crate::specs::Keys::login_key, crate::specs::Keys::key_of, crate::specs::Formed::login_fine))]
pub fn login_key(u: Unit, own: u32, l: Login) -> Key
    ensures { result ≡ login_key u own l }
{
    if l.used == 1 {
        key_of(
            used_fine(u, own, l),
            false,
            l.address,
            name_number(l.port_name),
        )
    } else {
        key_of(free_fine(l), true, 0, 0)
    }
}
