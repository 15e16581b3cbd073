// What each link service answers and what it stores. Values are decided here, no byte is written.
#![tactic(auto, unfolding(crate::specs::Link::size_of, crate::specs::Link::new_login, crate::specs::Turn::outcome_in, crate::specs::Turn::logo_turn, crate::specs::Turn::aborted_login, crate::specs::Turn::abts_turn))]

mod on_login;
mod rejection;

ghost use Rattle.std.specs.Prelude.{◌≡◌, ◌<◌};
ghost use Rattle.params.specs.Services.{code_of};
ghost use Rattle.link.specs.Link.{size_of, new_login, ends_for, outcome_reply};
ghost use Rattle.link.specs.Turn.{outcome_in, plogi_turn, logo_turn, aborted_login, link_turn, abts_turn};

use calls::{Decision, View, answer_only, change_logins, place_for, serve_at, store_login};
use formed::Key;
use frame::Header;
use on_login::serve;
use params::{Fault, Params, Reason, Service};
use rejection::Rejection;
use reply::{Accepted, Reply};
use state::{Change, Login, empty_login, end_exchange, find_exchange};
use wire::{be24, byte_at, name_number};

// Why a login is rejected that no place is free for.
// kept: a Reason and no Rejection, since what the parameters of a login are rejected for is a Reason too, and both are told alike
const NO_ROOM: Reason = Reason {
    reason: 0x09,
    explanation: 0x29,
};

// A request to the link services: other code, wrong size, PLOGI, LOGO, no login, and then the services on the sender's login.
#[tactic(auto, using(crate::proofs::Ways::other_code, crate::proofs::Ways::wrong_size, crate::proofs::Ways::plogi_way, crate::proofs::Ways::logo_way, crate::proofs::Ways::no_seat))]
pub fn link(v: View, h: Header, frame: &[u8]) -> Decision
    ensures { result ≡ link_turn v h frame.now }
{
    let Ok(service) = Service::try_from(byte_at(frame, 24)) else {
        return answer_only(Rejection::OtherCode.into());
    };
    if frame.len() != 24 + size_of(service) {
        return answer_only(Rejection::WrongSize.into());
    }
    match service {
        Service::Plogi => plogi(v.keys, h.s_id, Params::read(frame, 28)),
        Service::Logo => logo(h.s_id, be24(frame, 29)),
        _ => match v.seat {
            Some(i) => serve_at(i, serve(service, v.login, h.s_id, frame)),
            None => answer_only(Reply::Logout),
        },
    }
}

// ABTS of an exchange: without a login a drive LOGO; a named responder exchange is rejected; else the exchange ends, if there is one.
pub fn abts(v: View, h: Header) -> Decision
    ensures { result ≡ abts_turn v h }
{
    let Some(i) = v.seat else {
        return answer_only(Reply::Logout);
    };
    if h.rx_id == 0xffff {
        store_login(Reply::AbortAccept, i, end_named(v.login, h.ox_id))
    } else {
        answer_only(Reply::AbortReject)
    }
}

// A login without its exchange of this OX_ID, if there is one.
fn end_named(l: Login, ox_id: u16) -> Login
    ensures { result ≡ aborted_login l ox_id }
{
    match find_exchange(l, ox_id) {
        Some(j) => end_exchange(l, j),
        None => l,
    }
}

// The payload size of a request.
fn size_of(service: Service) -> usize
    ensures { (result ≡ size_of (code_of service)) × (result < 2113) }
{
    match service {
        Service::Plogi => 116,
        Service::Logo => 16,
        Service::Rrq => 44,
        Service::Prli => 20,
        Service::Prlo => 20,
        Service::Pdisc => 116,
        Service::Adisc => 28,
    }
}

// PLOGI: ends the sender's login first, accepted or not; the word tests in their order; where they pass the login of its port name ends, wherever it stands;
// then the room test.
#[tactic(auto, unfolding(crate::specs::Turn::plogi_turn))]
fn plogi(keys: [Key; 8], from: u32, q: Params) -> Decision
    ensures { result ≡ plogi_turn keys from q }
{
    let name = name_number(q.port_name);
    let v = q.verdict();
    let c = ends_for(v, from, name);
    let o = judged(v, keys, from, name);
    let r = outcome_reply(o);
    let Ok(j) = o else {
        return change_logins(r, c);
    };
    Decision {
        reply: r,
        change: c,
        at: Some(j),
        login: new_login(from, q),
    }
}

// The logins that end: a PLOGI that fails a word test ends the sender's own and no other.
// kept: no From here or below, since the types are of other crates
fn ends_for(v: Result<(), Fault>, from: u32, name: u64) -> Change
    ensures { result ≡ ends_for v from name }
{
    match v {
        Ok(()) => Change::EndHost(from, name),
        Err(_) => Change::EndLogin(from),
    }
}

// Where the login of a PLOGI goes, or why it is rejected: the word tests, and then the room test.
fn judged(v: Result<(), Fault>, keys: [Key; 8], from: u32, name: u64) -> Result<usize, Reason>
    ensures { result ≡ outcome_in v keys from name }
{
    v?;
    place_for(keys, from, name).ok_or(NO_ROOM)
}

fn outcome_reply(o: Result<usize, Reason>) -> Reply
    ensures { result ≡ outcome_reply o }
{
    match o {
        Ok(_) => Reply::Accept(Accepted::Login),
        Err(w) => Reply::Reject(w.reason, w.explanation),
    }
}

fn new_login(from: u32, q: Params) -> Login
    ensures { result ≡ new_login from q }
{
    let port_name = q.port_name;
    let node_name = q.node_name;
    Login {
        used: 1,
        proven: 1,
        attention: Login::RESET,
        concurrent: q.concurrent,
        sequences: q.sequences,
        size: q.size,
        address: from,
        port_name,
        node_name,
        ..empty_login()
    }
}

// LOGO: ends the login, if any, of a sender that names itself.
// kept: two addresses side by side, which are compared and no more; so in rrq and adisc
fn logo(from: u32, named: u32) -> Decision
    ensures { result ≡ logo_turn from named }
{
    if named == from {
        change_logins(Reply::Accept(Accepted::Short), Change::EndLogin(from))
    } else {
        answer_only(Rejection::NotSender.into())
    }
}
