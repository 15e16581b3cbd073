// What each change makes of one login (document 01, the events of "Link services" and the task flags of "Commands").
#![tactic(auto, unfolding(crate::specs::Changes::freed_of, crate::specs::Changes::ended_of, crate::specs::Changes::host_ended, crate::specs::Changes::unproven, crate::specs::Changes::verified, crate::specs::Changes::aborted_of, crate::specs::Changes::reset_of, crate::specs::Changes::loses_to, crate::specs::Changes::cleared_by, crate::specs::Changes::changed_all))]

ghost use Rattle.std.specs.Prelude.{◌≡◌};
ghost use Rattle.state.specs.Changes.{loses_to, changed_of, changed_all};

use crate::searches::{all_closed, has_address, is_host};
use crate::stored::{end_exchanges, set_attention};
use crate::{Change, Login, Port};

// What a change makes of one login. A free place stays free.
pub fn changed(l: Login, c: Change) -> Login
    ensures { result ≡ changed_of c l }
{
    match c {
        Change::Keep => l,
        Change::EndAll if l.used == 1 => Login::EMPTY,
        Change::EndLogin(address) if has_address(l, address) => Login::EMPTY,
        Change::EndHost(address, name) if is_host(l, address, name) => Login::EMPTY,
        Change::Unprove if l.used == 1 => Login { proven: 0, ..l },
        Change::EndUnproven if l.used == 1 && l.proven != 1 => Login::EMPTY,
        Change::EndExchangesOf(address) if has_address(l, address) => end_exchanges(l),
        Change::Reset if l.used == 1 => set_attention(end_exchanges(l), Login::RESET),
        Change::Clear(from) if l.used == 1 && loses_to(l, from) => {
            set_attention(end_exchanges(l), Login::CLEARED)
        },
        Change::Clear(_) if l.used == 1 => end_exchanges(l),
        _ => l,
    }
}

// The change at every login of the table.
pub fn change_all(p: Port, c: Change) -> Port
    ensures { result ≡ changed_all c p }
{
    let mut q = p;
    for l in &mut q.logins {
        *l = changed(*l, c);
    }
    q
}

// Whether a login is another than the sender's, has an exchange to lose, and no attention 29h that stands.
fn loses_to(l: Login, from: u32) -> bool
    ensures { result ≡ loses_to from l }
{
    l.address != from && !all_closed(l.places) && l.attention != Login::RESET
}
