// Why a call refuses what it was given, and the paper's number of each reason.
ghost use Rattle.std.specs.Prelude.{◌≡◌};
ghost use Rattle.basics.specs.Refusals.{refusal_number};

// "Numbers of refusal": each call has its own of them, and answers the one with the smallest number that applies.
#[derive(Clone, Copy, PartialEq, Eq)]
pub enum Refusal {
    Trailer,
    Counts,
    Records,
    Bodies,
    Names,
    Labels,
    Cycle,
    Unset,
    TooLong,
    NoRoom,
    Schedule,
    NoCells,
    Allotments,
    NoChoice,
    Choices,
    NotOurs,
}

impl Refusal {
    // The number that is answered.
    pub fn number(self) -> u8
        ensures { result ≡ refusal_number self }
    {
        match self {
            Refusal::Trailer => 1,
            Refusal::Counts => 2,
            Refusal::Records => 3,
            Refusal::Bodies => 4,
            Refusal::Names => 5,
            Refusal::Labels => 6,
            Refusal::Cycle => 7,
            Refusal::Unset => 8,
            Refusal::TooLong => 9,
            Refusal::NoRoom => 10,
            Refusal::Schedule => 11,
            Refusal::NoCells => 12,
            Refusal::Allotments => 13,
            Refusal::NoChoice => 14,
            Refusal::Choices => 15,
            Refusal::NotOurs => 1, // its own reason, with the number that such texts have
        }
    }
}
