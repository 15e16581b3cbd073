// What stands at a place, and what is stored there: logins and their exchanges, opened, advanced and ended.
#![tactic(auto, unfolding(crate::specs::Changes::login_at, crate::specs::Changes::exchange_at, crate::specs::Changes::with_login, crate::specs::Changes::with_exchange, crate::specs::Changes::without_exchanges))]

ghost use Rattle.std.specs.Prelude.{◌≡◌, slice_index_or, slice_set};
ghost use Rattle.state.specs.Changes.{empty_exchange, empty_login, login_at, exchange_at, with_login, with_exchange, without_exchanges, with_attention, advanced, asked, taken, ended_at};

use crate::{Exchange, Login, Port};

pub fn empty_exchange() -> Exchange
    ensures { result ≡ empty_exchange }
{
    Exchange::EMPTY
}

pub fn empty_login() -> Login
    ensures { result ≡ empty_login }
{
    Login::EMPTY
}

// What stands at a place of a table; past the table's end `none`.
fn at<T: Copy>(t: &[T], i: usize, none: T) -> T
    ensures { result ≡ slice_index_or t.now i none }
{
    t.get(i).copied().unwrap_or(none)
}

// An element is stored at a place of a table; past the table's end nothing is stored.
fn put<T: Copy>(t: &mut [T], i: usize, x: T)
    ensures { t.new ≡ slice_set t.old i x }
{
    if i < t.len() {
        t[i] = x;
    }
}

// The login at a place; past the table's end an empty one.
pub fn login_at(p: Port, i: usize) -> Login
    ensures { result ≡ login_at p i }
{
    at(&p.logins, i, Login::EMPTY)
}

// The exchange at a place; past the table's end an empty one.
pub fn exchange_at(l: Login, j: usize) -> Exchange
    ensures { result ≡ exchange_at l j }
{
    at(&l.places, j, Exchange::EMPTY)
}

// A login is stored at a place; past the table's end nothing is stored.
pub fn put_login(p: Port, i: usize, l: Login) -> Port
    ensures { result ≡ with_login p i l }
{
    let mut q = p;
    put(&mut q.logins, i, l);
    q
}

// An exchange is stored at a place of a login, opened or changed; past the table's end nothing is stored.
pub fn put_exchange(l: Login, j: usize, e: Exchange) -> Login
    ensures { result ≡ with_exchange l j e }
{
    let mut m = l;
    put(&mut m.places, j, e);
    m
}

// The exchange at a place of a login ends.
pub fn end_exchange(l: Login, j: usize) -> Login
    ensures { result ≡ ended_at l j }
{
    put_exchange(l, j, Exchange::EMPTY)
}

// A data frame of n bytes more was sent.
pub fn advance(e: Exchange, n: u32) -> Exchange
    ensures { result ≡ advanced e n }
{
    Exchange {
        sent: e.sent.wrapping_add(n),
        count: e.count.wrapping_add(1),
        ..e
    }
}

// Data were asked for, and are awaited.
pub fn ask_data(e: Exchange) -> Exchange
    ensures { result ≡ asked e }
{
    Exchange { awaited: 1, ..e }
}

// A data frame of n bytes more was taken; after it data are awaited, or not.
// kept: awaited is the stored flag of the C interface, 0 or 1, and the contract speaks of any number
pub fn take_data(e: Exchange, n: u32, awaited: u8) -> Exchange
    ensures { result ≡ taken e n awaited }
{
    Exchange {
        sent: e.sent.wrapping_add(n),
        awaited,
        ..e
    }
}

// All exchanges of a login end.
pub fn end_exchanges(l: Login) -> Login
    ensures { result ≡ without_exchanges l }
{
    Login {
        places: [Exchange::EMPTY; 8],
        ..l
    }
}

// The login's attention is set, or cleared with 0.
// kept: attention is the stored number of the C interface, and the contract speaks of any
pub fn set_attention(l: Login, attention: u8) -> Login
    ensures { result ≡ with_attention l attention }
{
    Login { attention, ..l }
}
