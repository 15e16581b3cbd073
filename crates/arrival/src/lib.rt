// What arrived: a frame in is refused by the first of the numbers 2 to 7 that fits it, or it is of one of five forms.
#![tactic(auto, unfolding(crate::specs::Arrival::bad_size, crate::specs::Arrival::bad_source, crate::specs::Arrival::known_pair, crate::specs::Arrival::bad_sequence, crate::specs::Arrival::unknown_form, crate::specs::Arrival::spared, crate::specs::Arrival::form_of, crate::specs::Arrival::judged_by))]

ghost use Rattle.std.specs.Prelude.{◌≡◌};
ghost use Rattle.params.specs.Services.{code_of};
ghost use Rattle.arrival.specs.Arrival.{bad_size, bad_source, known_pair, bad_sequence, unknown_form, spared, form_of, judged_by};

use address::valid_address;
use frame::Header;
use params::{Service, fail_if, misfits};
use refusal::Refusal;
use wire::byte_at;

// The forms of the frames that are taken: a request to the link services, the answer to one, ABTS, FCP_CMND, and FCP_DATA.
#[derive(Clone, Copy)]
pub enum Form {
    Link,
    Done,
    Abort,
    Command,
    Data,
}

impl Form {
    // R_CTL of a request to the link services, and of FCP_DATA.
    pub const REQUEST: u8 = 0x22;

    pub const DATA: u8 = 0x01;
}

// The frame with header h to a drive of this address: refusals 2 to 7 in order, or its form.
// Whether the state is well formed and whether the sender's login is unproven is the caller's to tell, and refusal 1 was told before.
// kept: five values side by side, since one caller has them from a View and the other from the lent state, with no value of both.
pub fn judge(fine: bool, unproven: bool, own: u32, h: Header, frame: &[u8]) -> Result<Form, Refusal>
    ensures { result ≡ judged_by fine unproven own h frame.now }
{
    fail_if(!fine, Refusal::IllFormed)?;
    fail_if(bad_size(frame.len()), Refusal::BadSize)?;
    fail_if(h.d_id != own, Refusal::NotOurs)?;
    fail_if(bad_source(own, h.s_id), Refusal::BadSource)?;
    fail_if(unknown_form(h, frame.len()), Refusal::UnknownForm)?;
    let spared = is_spared(h, byte_at(frame, 24));
    fail_if(unproven && !spared, Refusal::Unproven)?;
    Ok(form_of(h.r_ctl))
}

// Not 24 to 2,136 bytes, or not a multiple of 4.
fn bad_size(size: usize) -> bool
    ensures { result ≡ bad_size size }
{
    misfits(size, Header::LEAST_FRAME, Header::MOST_FRAME)
}

// Not a valid address, or ours.
fn bad_source(own: u32, from: u32) -> bool
    ensures { result ≡ bad_source own from }
{
    !valid_address(from) || from == own
}

// R_CTL and TYPE of a frame that is taken.
// kept: numbers, since any byte may stand in a header, and the documents name the pairs by them.
fn known_pair(h: Header) -> bool
    ensures { result ≡ known_pair h.r_ctl h.protocol }
{
    matches!(
        (h.r_ctl, h.protocol),
        (0x22, 0x01) | (0x23, 0x01) | (0x81, 0x00) | (0x06, 0x08) | (0x01, 0x08)
    )
}

// Another pair; DF_CTL not 0; SEQ_CNT or fill that do not fit the form; a 22h frame without payload.
// kept: a header beside its frame or size, here and in the crates above, since each function promises an answer for any two
fn unknown_form(h: Header, size: usize) -> bool
    ensures { result ≡ unknown_form h size }
{
    !known_pair(h)
        || h.df_ctl != 0
        || bad_sequence(h, size)
        || h.r_ctl == Form::REQUEST && size <= Header::LEAST_FRAME
}

// SEQ_CNT or the fill count in the low two bits of F_CTL not 0; of a data frame more fill than payload.
fn bad_sequence(h: Header, size: usize) -> bool
    ensures { result ≡ bad_sequence h size }
{
    let fill = (h.f_ctl % 4) as usize;
    if h.r_ctl == Form::DATA {
        size.saturating_sub(Header::LEAST_FRAME) < fill
    } else {
        h.seq_cnt != 0 || fill != 0
    }
}

// The frame is one of PLOGI, PDISC, ADISC, LOGO.
#[tactic(auto, using(crate::proofs::Spared::of_service, crate::proofs::Spared::of_none), unfolding(crate::specs::Arrival::spared))]
fn is_spared(h: Header, code: u8) -> bool
    ensures { result ≡ spared h.r_ctl code }
{
    h.r_ctl == Form::REQUEST && Service::try_from(code).is_ok_and(is_login)
}

// The services that are about the login itself.
fn is_login(service: Service) -> bool
    ensures { result ≡ spared 0x22 (code_of service) }
{
    matches!(
        service,
        Service::Plogi | Service::Logo | Service::Pdisc | Service::Adisc
    )
}

// What a frame that passes is, by its R_CTL.
// kept: a function and no From, since its name stands in docs/PROMISES.md, and a From would have a byte that no form has be a command everywhere
pub fn form_of(r_ctl: u8) -> Form
    ensures { result ≡ form_of r_ctl }
{
    match r_ctl {
        Form::REQUEST => Form::Link,
        0x23 => Form::Done,
        0x81 => Form::Abort,
        Form::DATA => Form::Data,
        _ => Form::Command,
    }
}
