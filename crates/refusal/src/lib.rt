//! Why a call is refused. A call asks the questions that concern it in the order of their numbers;
//! the first that is answered no gives the refusal.

#![tactic(auto)]

ghost use Rattle.std.specs.Prelude.{◌≡◌};
ghost use Rattle.refusal.specs.Reports.{report_of};

/// Why a call is refused.
#[derive(Clone, Copy, PartialEq, Eq, Debug)]
pub enum Refusal {
    /// The degree p is not from 2 to 1277.
    Degree,
    /// The capacity is not from 1 to 64.
    Capacity,
    /// The count of steps, the degree difference or the length of f is out of range.
    Range,
    /// The sheet is too short.
    Sheet,
    /// The scratch is too short.
    Scratch,
    /// A list has not exactly its length.
    Length,
    /// A number is no code of the field. Only a call on several entries names one; else `entry` is 0: entries are
    /// counted from 1, and a report has 0 for no entry, so an Option here would only be turned back into that 0.
    NotACode { entry: u32 },
    /// There is no entry.
    NoEntry,
    /// The tray is full.
    Full,
    /// A shelf that is to be read holds a number that is no code.
    Shelf,
    /// There is no inverse. Only a call on several entries names one; else `entry` is 0, as above.
    NoInverse { entry: u32, steps: u32 },
}

/// What a refusal tells its caller: three plain numbers, as a console shows them.
#[derive(Clone, Copy, PartialEq, Eq, Debug)]
pub struct Report {
    /// The number of the question that was answered no.
    pub number: u32,
    /// The first entry that the question was answered no for, counted from 1, or 0.
    pub entry: u32,
    /// The division steps that were made before the refusal.
    pub steps: u32,
}

impl Refusal {
    /// The number, the entry and the steps of this refusal.
    pub fn report(&self) -> Report
        ensures { result ≡ report_of self.now }
    {
        Report::from(*self)
    }
}

/// The number, the entry and the steps of a refusal.
impl From<Refusal> for Report {
    ghost from_gives = { λ refusal report. report ≡ report_of refusal };

    fn from(refusal: Refusal) -> Report {
        let (number, entry, steps) = match refusal {
            Refusal::Degree => (1, 0, 0),
            Refusal::Capacity => (2, 0, 0),
            Refusal::Range => (3, 0, 0),
            Refusal::Sheet => (4, 0, 0),
            Refusal::Scratch => (5, 0, 0),
            Refusal::Length => (6, 0, 0),
            Refusal::NotACode { entry } => (7, entry, 0),
            Refusal::NoEntry => (8, 0, 0),
            Refusal::Full => (9, 0, 0),
            Refusal::Shelf => (10, 0, 0),
            Refusal::NoInverse { entry, steps } => (13, entry, steps),
        };
        Report {
            number,
            entry,
            steps,
        }
    }
}
