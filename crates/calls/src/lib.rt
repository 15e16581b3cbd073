// What a call sees of the drive, and what it does, told by what changes: every service decides on the one and answers the other.
#![tactic(auto, unfolding(crate::specs::View::find_any, crate::specs::View::seat_of, crate::specs::View::place_for, crate::specs::View::view_from, crate::specs::View::view_of))]

ghost use Rattle.std.specs.Prelude.{◌≡◌};
ghost use Rattle.tables.specs.Lists.{Within};
ghost use Rattle.state.specs.Tables.{login_in};
ghost use Rattle.calls.specs.View.{is_any, find_any, seat_of, place_for, sight_from, sight_of, view_from, view_of};
ghost use Rattle.calls.specs.Turn.{answers_only, stores, changes, served_as, served_in, refused_turn, sent_turn, port_after};

use formed::{Key, all_fine, key_named, login_keys};
use refusal::Refusal;
use reply::Reply;
use state::{Change, Login, Own, Port, Unit, change_all, empty_login, put_login};

// What every call sees of a port's logins: their keys, and whether the state is well formed.
// kept: keys beside the logins that they are of, since the table is read once for them; the test of an empty drive took 75 ns without and 47 with them (docs/DECISIONS.md)
#[derive(Clone, Copy)]
pub struct Sight {
    pub keys: [Key; 8],
    pub fine: bool,
}

// What a call of one port sees: the unit, its own address and accept words, the keys of all logins, the place of the caller's login, that login,
// which is an empty one where it has none, and whether the state is well formed.
#[derive(Clone, Copy)]
pub struct View {
    pub unit: Unit,
    pub own: Own,
    pub keys: [Key; 8],
    pub seat: Option<usize>,
    pub login: Login,
    pub fine: bool,
}

// A service's reply, and the login after it.
#[derive(Clone, Copy)]
pub struct Served {
    pub reply: Reply,
    pub login: Login,
}

// A reply, and what changes: a change of every login, and then a login at a place, or at none.
#[derive(Clone, Copy)]
pub struct Decision {
    pub reply: Reply,
    pub change: Change,
    pub at: Option<usize>,
    pub login: Login,
}

// The same once the reply is written, or the call refused.
#[derive(Clone, Copy)]
pub struct Turn {
    pub said: Result<usize, Refusal>,
    pub change: Change,
    pub at: Option<usize>,
    pub login: Login,
}

fn is_any(k: Key, a: u64, b: u64, name: u64) -> bool
    ensures { result ≡ is_any a b name k }
{
    k.id == a || k.id == b || key_named(k, name)
}

// The lowest place whose key is one of two, or has a name.
fn find_any(keys: [Key; 8], a: u64, b: u64, name: u64) -> Option<usize>
    ensures { Within (find_any keys a b name) 8 result }
{
    keys.iter().position(|k| is_any(*k, a, b, name))
}

// The place of the login of an address.
pub fn seat_of(keys: [Key; 8], address: u32) -> Option<usize>
    ensures { Within (seat_of keys address) 8 result }
{
    let k = 2 + address as u64;
    find_any(keys, k, k, 0)
}

// The lowest place that is free once the logins of an address and of a port name have ended.
pub fn place_for(keys: [Key; 8], address: u32, name: u64) -> Option<usize>
    ensures { Within (place_for keys address name) 8 result }
{
    let k = 2 + address as u64;
    find_any(keys, 1, k, name)
}

// What every call sees of logins with these keys.
pub fn sight_from(u: Unit, o: Own, keys: [Key; 8]) -> Sight
    ensures { result ≡ sight_from u o keys }
{
    Sight {
        keys,
        fine: all_fine(u, o, keys),
    }
}

// What every call sees of a unit and a port.
// kept: unit and port side by side, since Drive is of a crate above
pub fn sight_of(u: Unit, p: &Port) -> Sight
    ensures { result ≡ sight_of u p.now }
{
    sight_from(u, Own::from(p), login_keys(u, p))
}

// What a call sees, from what was read of the drive; l is the login at the seat, and any other where there is none.
pub fn see(u: Unit, o: Own, s: Sight, seat: Option<usize>, l: Login) -> View
    ensures { result ≡ view_from u o s seat l }
{
    let Sight { keys, fine } = s;
    let login = match seat {
        Some(_) => l,
        None => empty_login(),
    };
    View {
        unit: u,
        own: o,
        keys,
        seat,
        login,
        fine,
    }
}

// What a call of the port at an address sees of a unit and a port.
pub fn look(u: Unit, p: &Port, address: u32) -> View
    ensures { result ≡ view_of u p.now address }
{
    let s = sight_of(u, p);
    let seat = seat_of(s.keys, address);
    see(u, Own::from(p), s, seat, login_in(p, seat))
}

// The login at a seat, an empty one where there is none; it alone is read.
pub fn login_in(p: &Port, seat: Option<usize>) -> Login
    ensures { result ≡ login_in p.now seat }
{
    let logins: &[Login] = &p.logins;
    match seat {
        Some(i) if i < logins.len() => logins[i],
        _ => empty_login(),
    }
}

// A reply, and nothing changes.
pub fn answer_only(r: Reply) -> Decision
    ensures { result ≡ answers_only r }
{
    change_logins(r, Change::Keep)
}

// A reply, and the login at a place after it; no other login changes.
pub fn store_login(r: Reply, i: usize, l: Login) -> Decision
    ensures { result ≡ stores r i l }
{
    Decision {
        reply: r,
        change: Change::Keep,
        at: Some(i),
        login: l,
    }
}

// A reply, and a change of every login.
pub fn change_logins(r: Reply, c: Change) -> Decision
    ensures { result ≡ changes r c }
{
    Decision {
        reply: r,
        change: c,
        at: None,
        login: empty_login(),
    }
}

// A reply with the login after it.
pub fn serve_as(r: Reply, l: Login) -> Served
    ensures { result ≡ served_as r l }
{
    Served { reply: r, login: l }
}

// A service on the login at a place.
pub fn serve_at(i: usize, s: Served) -> Decision
    ensures { result ≡ served_in i s }
{
    store_login(s.reply, i, s.login)
}

// A refusal: nothing changes.
pub fn refuse_turn(x: Refusal) -> Turn
    ensures { result ≡ refused_turn x }
{
    Turn {
        said: Err(x),
        change: Change::Keep,
        at: None,
        login: empty_login(),
    }
}

// A decision whose reply was written, in so many bytes.
pub fn send_turn(n: usize, d: Decision) -> Turn
    ensures { result ≡ sent_turn n d }
{
    Turn {
        said: Ok(n),
        change: d.change,
        at: d.at,
        login: d.login,
    }
}

// The port after a turn: every login changed so, and then that login at its place.
pub fn port_after(p: Port, t: Turn) -> Port
    ensures { result ≡ port_after p t }
{
    let q = change_all(p, t.change);
    match t.at {
        Some(i) => put_login(q, i, t.login),
        None => q,
    }
}
