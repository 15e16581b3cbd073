// The codes of the link services, and the word tests of a login's parameters: what PLOGI and PDISC carry, and the words of the login accept that a setup gives.
#![tactic(auto)]

ghost use Rattle.std.specs.Prelude.{◌≡◌, cond, Ok, Err};
ghost use Rattle.params.specs.Words.{params_of, misfits, size_fails, zero_name, verdict_of, setup_passes, reason_of};
ghost use Rattle.params.specs.Services.{service_with};

use wire::{BigEndian, byte_at, part};

// The link services.
#[derive(Clone, Copy)]
pub enum Service {
    Plogi,
    Logo,
    Rrq,
    Prli,
    Prlo,
    Pdisc,
    Adisc,
}

// A code that no link service has.
#[derive(Clone, Copy)]
pub struct OtherCode;

// The service that a request asks for, by its code.
impl TryFrom<u8> for Service {
    type Error = OtherCode;

    ghost try_from_gives = { λ code r. r ≡ service_with code };

    #[tactic(auto, unfolding(crate::specs::Services::service_with))]
    fn try_from(code: u8) -> Result<Service, OtherCode> {
        match code {
            0x03 => Ok(Service::Plogi),
            0x05 => Ok(Service::Logo),
            0x12 => Ok(Service::Rrq),
            0x20 => Ok(Service::Prli),
            0x21 => Ok(Service::Prlo),
            0x50 => Ok(Service::Pdisc),
            0x52 => Ok(Service::Adisc),
            _ => Err(OtherCode),
        }
    }
}

// What the word tests look at. W and B are word and byte of the payload.
#[derive(Clone, Copy)]
pub struct Params {
    // W2/B2-3, low 12 bits: the buffer-to-buffer receive size
    pub buffer: u16,
    // W5-6
    pub port_name: [u8; 8],
    // W7-8
    pub node_name: [u8; 8],
    // W17/B0, whose top bit is bit 31 of the word: class 3 is served
    pub class3: u8,
    // W18/B2-3, low 12 bits: the class 3 receive size
    pub size: u16,
    // W19/B1: concurrent sequences
    pub concurrent: u8,
    // W20/B1: open sequences in an exchange
    pub sequences: u8,
}

// The test that fails first, named after the field that it looks at.
#[derive(Clone, Copy)]
pub enum Fault {
    BufferSize,
    PortName,
    NodeName,
    ClassThree,
    DataSize,
    ConcurrentSequences,
    OpenSequences,
}

// Why a login is rejected, as LS_RJT has it.
// kept: two bytes, as they are sent; the kinds of faults are `Fault`.
#[derive(Clone, Copy)]
pub struct Reason {
    pub reason: u8,
    pub explanation: u8,
}

impl Params {
    pub const LEAST_SIZE: u16 = 256;

    pub const MOST_SIZE: u16 = 2112;
    // W20/B1 of a drive's own accept words
    pub const SETUP_SEQUENCES: u8 = 1;

    // The parameters of a slice in which word 1 starts at a place: 4 in a payload, 28 in a frame, 0 in a setup's words.
    // kept: no From, since the bytes alone don't tell the place.
    #[tactic(auto, unfolding(crate::specs::Words::params_of))]
    pub fn read(s: &[u8], word1: u8) -> Params
        ensures { result ≡ params_of s.now word1 }
    {
        let w = word1 as u16;
        let port = part::<8>(s, w + 16);
        let node = part::<8>(s, w + 24);
        Params {
            buffer: u16::read(s, w + 6) % 4096,
            port_name: port,
            node_name: node,
            class3: byte_at(s, (w + 64) as usize),
            size: u16::read(s, w + 70) % 4096,
            concurrent: byte_at(s, (w + 73) as usize),
            sequences: byte_at(s, (w + 77) as usize),
        }
    }

    // The word tests in word order: accepted, or rejected by the first test that fails.
    #[tactic(auto, unfolding(crate::specs::Words::verdict_of))]
    pub fn verdict(self) -> Result<(), Fault>
        ensures { result ≡ verdict_of self }
    {
        fail_if(size_fails(self.buffer), Fault::BufferSize)?;
        fail_if(zero_name(self.port_name), Fault::PortName)?;
        fail_if(zero_name(self.node_name), Fault::NodeName)?;
        fail_if(self.class3 < 128, Fault::ClassThree)?;
        fail_if(size_fails(self.size), Fault::DataSize)?;
        fail_if(self.concurrent == 0, Fault::ConcurrentSequences)?;
        fail_if(self.sequences == 0, Fault::OpenSequences)
    }

    // Whether a setup may have these in its accept words: the same tests, and W20/B1 = 01h.
    #[tactic(auto, unfolding(crate::specs::Words::setup_passes))]
    pub fn pass_setup(self) -> bool
        ensures { result ≡ setup_passes self }
    {
        self.verdict().is_ok() && self.sequences == Params::SETUP_SEQUENCES
    }
}

// The reason and explanation that a rejected login is answered with.
impl From<Fault> for Reason {
    ghost from_gives = { λ fault r. r ≡ reason_of fault };

    fn from(fault: Fault) -> Reason {
        let explanation = match fault {
            Fault::BufferSize => 0x0f,
            Fault::PortName => 0x0d,
            Fault::NodeName => 0x0e,
            Fault::ClassThree => 0x01,
            Fault::DataSize => 0x07,
            Fault::ConcurrentSequences => 0x09,
            Fault::OpenSequences => 0x01,
        };
        Reason {
            reason: 0x03,
            explanation: explanation,
        }
    }
}

// A test in a row of tests: where it fails, the row ends with what it says.
pub fn fail_if<E: Copy>(fails: bool, why: E) -> Result<(), E>
    ensures { result ≡ cond fails (Err why) (Ok tt) }
{
    if fails { Err(why) } else { Ok(()) }
}

// Whether a receive size is not from 256 to 2,112 or no multiple of 4. One test for W2 and W18.
#[tactic(auto, unfolding(crate::specs::Words::size_fails))]
pub fn size_fails(n: u16) -> bool
    ensures { result ≡ size_fails n }
{
    misfits(
        usize::from(n),
        usize::from(Params::LEAST_SIZE),
        usize::from(Params::MOST_SIZE),
    )
}

// Whether a size is not from a least to a most or no multiple of 4. One test for receive sizes and the size of a frame.
pub fn misfits(size: usize, least: usize, most: usize) -> bool
    ensures { result ≡ misfits size least most }
{
    !(least..=most).contains(&size) || size % 4 != 0
}

// Whether a name is zero. One test for the port name and the node name.
#[tactic(auto, using(crate::proofs::Names::zeros))]
pub fn zero_name(name: [u8; 8]) -> bool
    ensures { result ≡ zero_name name }
{
    name == [0; 8]
}
