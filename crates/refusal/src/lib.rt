// Why a call is refused, by the numbers of document 01.
#![tactic(auto)]

ghost use Rattle.std.specs.Prelude.{◌≡◌};
ghost use Rattle.refusal.specs.Refusal.{number_of};

// The refusals, each with its number.
#[derive(Clone, Copy)]
pub enum Refusal {
    ShortBuffer = 1,
    IllFormed = 2,
    BadSize = 3,
    NotOurs = 4,
    BadSource = 5,
    UnknownForm = 6,
    Unproven = 7,
    BadSetup = 8,
    NoExchange = 9,
    BadWindow = 10,
    NoWrite = 11,
}

impl Refusal {
    pub fn number(self) -> u8
        ensures { result ≡ number_of self }
    {
        self as u8
    }
}
