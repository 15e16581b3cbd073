// The services on the sender's login: PDISC, ADISC, PRLI, PRLO and RRQ (document 01, "Link services").
#![tactic(auto, unfolding(crate::specs::Link::names_differ, crate::specs::Link::pdisc_of, crate::specs::Link::adisc_of, crate::specs::Link::page_fine, crate::specs::Link::pair_fine, crate::specs::Link::prli_of, crate::specs::Link::prlo_of, crate::specs::Link::rrq_of, crate::specs::Link::service_of))]

ghost use Rattle.std.specs.Prelude.{◌≡◌};
ghost use Rattle.params.specs.Services.{code_of};
ghost use Rattle.state.specs.Tables.{find_exchange};
ghost use Rattle.link.specs.Page.{page_of};
ghost use Rattle.link.specs.Link.{proven_as, names_differ, pdisc_of, adisc_of, page_fine, pair_fine, prli_of, prlo_of, rrq_of, service_of};

use crate::rejection::Rejection;
use calls::{Served, serve_as};
use params::{Params, Reason, Service};
use reply::{Accepted, Reply};
use state::{Login, empty_login, end_exchanges, find_exchange};
use wire::{BigEndian, be24, byte_at, part};

// The services on the sender's login: PDISC, ADISC, PRLI, PRLO, RRQ; PLOGI and LOGO were answered before.
pub(crate) fn serve(service: Service, l: Login, from: u32, frame: &[u8]) -> Served
    ensures { result ≡ service_of (code_of service) l (find_exchange l) from frame.now }
{
    match service {
        Service::Pdisc => pdisc(l, Params::read(frame, 28)),
        Service::Adisc => {
            let port = part::<8>(frame, 32);
            let node = part::<8>(frame, 40);
            adisc(l, from, be24(frame, 49), port, node)
        }
        Service::Prli => prli(l, Page::read(frame)),
        Service::Prlo => prlo(l, Page::read(frame)),
        Service::Rrq | Service::Plogi | Service::Logo => {
            rrq(l, from, be24(frame, 29), u16::read(frame, 32))
        }
    }
}

// PDISC: other names end the login; then the word tests; accepted, the login is proven.
fn pdisc(l: Login, q: Params) -> Served
    ensures { result ≡ pdisc_of l q }
{
    if names_differ(l, q.port_name, q.node_name) {
        return serve_as(Reply::Logout, empty_login());
    }
    match q.verdict().map_err(Reason::from) {
        Ok(()) => proven(Accepted::Login, l),
        Err(w) => serve_as(Reply::Reject(w.reason, w.explanation), l),
    }
}

// ADISC: other names, or another address, end the login; else it is proven.
fn adisc(l: Login, from: u32, named: u32, port: [u8; 8], node: [u8; 8]) -> Served
    ensures { result ≡ adisc_of l from named port node }
{
    if names_differ(l, port, node) || named != from {
        serve_as(Reply::Logout, empty_login())
    } else {
        proven(Accepted::Address, l)
    }
}

// The service parameter page that PRLI and PRLO carry.
#[derive(Clone, Copy)]
struct Page {
    // B1-3: how long the page and the payload are
    lengths: u32,
    // W1/B0
    protocol: u8,
    // W1/B2
    flags: u8,
    // W4/B3
    roles: u8,
}

impl Page {
    fn read(frame: &[u8]) -> Page
        ensures { result ≡ page_of frame.now }
    {
        Page {
            lengths: be24(frame, 25),
            protocol: byte_at(frame, 28),
            flags: byte_at(frame, 30),
            roles: byte_at(frame, 43),
        }
    }

    // Whether it is the page of FCP.
    fn is_fine(self) -> bool
        ensures { result ≡ page_fine self.lengths self.protocol }
    {
        self.lengths == 0x100014 && self.protocol == 0x08
    }

    // Whether PRLI may have it: bit 5 of the flags, and bits 5 and 1 of the roles.
    fn may_pair(self) -> bool
        ensures { result ≡ pair_fine self.lengths self.protocol self.flags self.roles }
    {
        self.is_fine()
            && self.flags / 32 % 2 == 1
            && self.roles / 32 % 2 == 1
            && self.roles / 2 % 2 == 1
    }
}

// PRLI: marks the login paired and ends nothing.
fn prli(l: Login, page: Page) -> Served
    ensures { result ≡ prli_of l page.lengths page.protocol page.flags page.roles }
{
    if page.may_pair() {
        serve_as(Reply::Accept(Accepted::Pair), Login { paired: 1, ..l })
    } else {
        serve_as(Rejection::OtherPage.into(), l)
    }
}

// PRLO: ends the pairing and its exchanges.
fn prlo(l: Login, page: Page) -> Served
    ensures { result ≡ prlo_of l page.lengths page.protocol }
{
    if page.is_fine() {
        let m = Login {
            paired: 0,
            ..end_exchanges(l)
        };
        serve_as(Reply::Accept(Accepted::Unpair), m)
    } else {
        serve_as(Rejection::OtherPage.into(), l)
    }
}

// RRQ: of the sender itself, and of no exchange that is open.
fn rrq(l: Login, from: u32, named: u32, ox_id: u16) -> Served
    ensures { result ≡ rrq_of l from named (find_exchange l ox_id) }
{
    if named != from {
        return serve_as(Rejection::NotAsker.into(), l);
    }
    match find_exchange(l, ox_id) {
        Some(_) => serve_as(Rejection::StillOpen.into(), l),
        None => serve_as(Reply::Accept(Accepted::Short), l),
    }
}

// An ACC of this kind, and the login proven.
fn proven(a: Accepted, l: Login) -> Served
    ensures { result ≡ proven_as a l }
{
    serve_as(Reply::Accept(a), Login { proven: 1, ..l })
}

// kept: two names side by side, as Login has them, whose layout is the C interface's.
#[tactic(auto, using(crate::proofs::Names::same_names), unfolding(crate::specs::Link::names_differ))]
fn names_differ(l: Login, port: [u8; 8], node: [u8; 8]) -> bool
    ensures { result ≡ names_differ l port node }
{
    port != l.port_name || node != l.node_name
}
