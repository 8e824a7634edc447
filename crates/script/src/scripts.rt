//! The calls of a script, and what they answered.

ghost use Rattle.std.specs.Prelude.{◌≡◌};
ghost use Rattle.script.specs.declared.scripts.Stopped.TheVariants.{Refused, NoMemory};

use refusal::Refusal;
use std::alloc::AllocError;

/// A call on a tray, with the lists that it is given, or the lengths of those that it is lent.
#[derive(Drop)]
pub enum Call {
    /// Puts a numerator over a denominator.
    Put {
        numerator: Vec<u16>,
        denominator: Vec<u16>,
    },
    /// Takes the last entry back.
    TakeBack,
    /// Closes the tray with a scratch of so many numbers.
    Close {
        scratch: usize,
    },
    /// Draws into an output of `length` zeros, with a scratch of so many numbers.
    Draw {
        length: usize,
        scratch: usize,
    },
}

/// What came of a call.
#[derive(Drop)]
pub enum Outcome {
    /// The tray's state has no such call, so none was made.
    NotAllowed,
    /// The call was refused.
    Refused(Refusal),
    /// A put or a take back was accepted.
    Accepted,
    /// A close was accepted, after so many steps.
    Closed { steps: u32 },
    /// A draw was accepted, and gave this quotient.
    Drawn { quotient: Vec<u16> },
}

/// What came of a call, and the whole sheet after it.
#[derive(Drop)]
pub struct Answer {
    pub outcome: Outcome,
    pub sheet: Vec<u16>,
}

/// What came of a script: the sheet after the open, an answer for each call, and how many entries the burn reported.
#[derive(Drop)]
pub struct Replay {
    pub opened: Vec<u16>,
    pub answers: Vec<Answer>,
    pub left: usize,
}

/// Why a script was not performed to its end.
#[derive(Drop)]
pub enum Stopped {
    /// The open was refused.
    Refused(Refusal),
    /// There was no memory for the answers; the tray is burnt.
    NoMemory(AllocError),
}

impl From<Refusal> for Stopped {
    ghost from_gives = { λ refusal stopped. stopped ≡ Refused refusal };

    fn from(refusal: Refusal) -> Stopped {
        Stopped::Refused(refusal)
    }
}

impl From<AllocError> for Stopped {
    ghost from_gives = { λ error stopped. stopped ≡ NoMemory error };

    fn from(error: AllocError) -> Stopped {
        Stopped::NoMemory(error)
    }
}
