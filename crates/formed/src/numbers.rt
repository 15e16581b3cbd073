// A table's test by what its places are known by: each place is fine, and no two that are in use are known by the same.
#![tactic(auto)]

ghost use Rattle.std.specs.Prelude.{◌≡◌, ℕ, Bool};
ghost use Rattle.tables.specs.Lists.{all};
ghost use Rattle.formed.specs.Keys.{number_of, place_fine, places_fine, apart_number};

// What a place is known by: its number, 0 where the place is not fine, 1 where it is free, and from 2 on that of what stands there; and whether it is apart from another's.
pub(crate) trait Known {
    ghost number: { Self → ℕ };

    ghost apart: { Self → Self → Bool };

    fn number(&self) -> u64
        ensures { result ≡ number self.now };

    fn is_apart(&self, other: &Self) -> bool
        ensures { result ≡ apart self.now other.now };
}

// An exchange is known by its number alone.
// kept: a number and no enum of what is not fine, free or open, by which the test of a full drive took 986 ns (the old form 774, this one 699); by the exchanges themselves 924.
impl Known for u64 {
    ghost number = { λ n. n };

    ghost apart = { apart_number };

    fn number(&self) -> u64 {
        *self
    }

    fn is_apart(&self, other: &u64) -> bool {
        *self != *other
    }
}

pub(crate) fn number_of(fine: bool, free: bool, id: u32) -> u64
    ensures { result ≡ number_of fine free id }
{
    if !fine {
        0
    } else if free {
        1
    } else {
        2 + u64::from(id)
    }
}

// Whether what a place is known by is that of one that is fine, and free or apart from those behind it.
fn place_fine<K: Known>(place: &K, rest: &[K]) -> bool
    ensures { result ≡ place_fine K.number K.apart place.now rest.now }
{
    let number = place.number();
    number != 0 && (number == 1 || is_alone(place, rest))
}

fn is_alone<K: Known>(place: &K, rest: &[K]) -> bool
    ensures { result ≡ all (K.apart place.now) rest.now }
{
    rest.iter().all(|other| place.is_apart(other))
}

// Whether these are what the places of a table are known by, where all are fine and no two that are in use are known by the same.
pub(crate) fn places_fine<K: Known>(places: &[K]) -> bool
    ensures { result ≡ places_fine K.number K.apart places.now }
{
    let mut left = places;
    while let Some((place, rest)) = left.split_first() {
        if !place_fine(place, rest) {
            return false;
        }
        left = rest;
    }
    true
}
