//! Performing one call of a script on a tray.

ghost use Rattle.std.specs.Prelude.{◌≡◌, replicate, Ok, IfOk, MatchResult, vec_len};
ghost use Rattle.traylaw.specs.Calculus.{calculus};
ghost use Rattle.traylaw.specs.Sheets.{clear_sheet};
ghost use Rattle.script.specs.Events.{a_put, a_take_back, a_close, a_draw, call_of, tray_of, degree_of, capacity_of, TurnOf};

use crate::scripts::{Call, Outcome};
use field::Field;
use refusal::Refusal;
use std::alloc::{AllocError, Global};
use tray::{BurnOwed, ClosedTray, OpenTray};

/// A tray in either state.
pub(crate) enum State {
    Open(OpenTray),
    Closed(ClosedTray),
}

/// A tray as a call left it, and what came of the call, if there was memory for the lists that it is lent. The tray
/// comes back without memory too, since a burn is owed for it, so no `?` ends a call.
pub(crate) type Turned = (State, Result<Outcome, AllocError>);

impl State {
    /// Performs one call of a script.
    pub(crate) fn perform<F: Field>(self, heap: Global, call: &Call, sheet: &mut [u16]) -> Turned
        ensures { TurnOf (calculus F.Field.arithmetic F.Field.recip) self sheet.old (call_of call.now) result.1 result.0 sheet.new }
    {
        match (self, call) {
            (
                State::Open(tray),
                Call::Put {
                    numerator,
                    denominator,
                },
            ) => put::<F>(tray, numerator, denominator, sheet),
            (State::Open(tray), Call::TakeBack) => take_back::<F>(tray, sheet),
            (State::Open(tray), Call::Close { scratch }) => close::<F>(heap, tray, *scratch, sheet),
            (State::Closed(tray), Call::Draw { length, scratch }) => {
                draw::<F>(heap, tray, *length, *scratch, sheet)
            }
            (state, _) => (state, Ok(Outcome::NotAllowed)),
        }
    }

    /// Burns the tray.
    pub(crate) fn burn(self, owed: BurnOwed, sheet: &mut [u16]) -> usize
        ensures entries_left { result ≡ (tray_of self sheet.old).count }
        ensures shelves_zero { sheet.new ≡ clear_sheet (degree_of self) (capacity_of self) sheet.old }
    {
        // The arms look alike, but their trays differ in type.
        match self {
            State::Open(tray) => tray.burn(owed, sheet),
            State::Closed(tray) => tray.burn(owed, sheet),
        }
    }
}

/// What came of a call: its refusal, or else what is said where it is accepted.
fn outcome_of(answer: Result<(), Refusal>, accepted: Outcome) -> Outcome
    ensures { MatchResult answer (λ _. result ≡ accepted) (λ refusal. result ≡ Outcome.Refused refusal) }
{
    answer.map_or_else(Outcome::Refused, |()| accepted)
}

/// A put on an open tray.
fn put<F: Field>(
    mut tray: OpenTray,
    numerator: &[u16],
    denominator: &[u16],
    sheet: &mut [u16],
) -> Turned
    ensures { TurnOf (calculus F.Field.arithmetic F.Field.recip) (State.Open tray) sheet.old (a_put numerator.now denominator.now) result.1 result.0 sheet.new }
{
    let answer = tray.put::<F>(sheet, numerator, denominator);
    (State::Open(tray), Ok(outcome_of(answer, Outcome::Accepted)))
}

/// A take back on an open tray. (As short as a put: a function for both would take the call as a closure.)
fn take_back<F: Field>(mut tray: OpenTray, sheet: &mut [u16]) -> Turned
    ensures { TurnOf (calculus F.Field.arithmetic F.Field.recip) (State.Open tray) sheet.old a_take_back result.1 result.0 sheet.new }
{
    let answer = tray.take_back(sheet);
    (State::Open(tray), Ok(outcome_of(answer, Outcome::Accepted)))
}

/// A close of an open tray with a scratch of so many numbers.
fn close<F: Field>(heap: Global, tray: OpenTray, room: usize, sheet: &mut [u16]) -> Turned
    ensures { TurnOf (calculus F.Field.arithmetic F.Field.recip) (State.Open tray) sheet.old (a_close room) result.1 result.0 sheet.new }
{
    let mut scratch = match Vec::from_elem(heap, 0u16, room) {
        Ok(scratch) => scratch,
        Err(error) => return (State::Open(tray), Err(error)),
    };
    // No `map`: each arm moves its tray, and a closure for each would say no more.
    match tray.close::<F>(sheet, &mut scratch) {
        Ok((closed, steps)) => (State::Closed(closed), Ok(Outcome::Closed { steps })),
        Err((open, refusal)) => (State::Open(open), Ok(Outcome::Refused(refusal))),
    }
}

/// A draw from a closed tray into an output of so many zeros, with a scratch of so many numbers.
fn draw<F: Field>(
    heap: Global,
    mut tray: ClosedTray,
    count: usize,
    room: usize,
    sheet: &mut [u16],
) -> Turned
    ensures { TurnOf (calculus F.Field.arithmetic F.Field.recip) (State.Closed tray) sheet.old (a_draw (replicate count 0) room) result.1 result.0 sheet.new }
{
    let (mut quotient, mut scratch) = match lists(heap, count, room) {
        Ok(lists) => lists,
        Err(error) => return (State::Closed(tray), Err(error)),
    };
    let answer = tray.draw::<F>(sheet, &mut quotient, &mut scratch);
    let outcome = outcome_of(answer, Outcome::Drawn { quotient });
    (State::Closed(tray), Ok(outcome))
}

/// A list of `count` zeros and a list of `room` numbers.
fn lists(heap: Global, count: usize, room: usize) -> Result<(Vec<u16>, Vec<u16>), AllocError>
    ensures { IfOk result (λ lists. (lists.0.items ≡ replicate count 0) × (vec_len lists.1 ≡ room)) }
{
    let zeros = Vec::from_elem(heap, 0u16, count)?;
    let numbers = Vec::from_elem(heap, 0u16, room)?;
    Ok((zeros, numbers))
}
