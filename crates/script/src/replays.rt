//! Performing a whole script.

ghost use Rattle.std.specs.Prelude.{◌≡◌, length, take, replicate, IfOk, OnOk};
ghost use Rattle.traylaw.specs.Calculus.{calculus};
ghost use Rattle.traylaw.specs.Effects.{granted, after_open};
ghost use Rattle.traylaw.specs.Runs.{Opened};
ghost use Rattle.traylaw.specs.Sheets.{room, clear_sheet};
ghost use Rattle.script.specs.Events.{tray_of, degree_of, capacity_of};
ghost use Rattle.script.specs.Replays.{Notes, Performed, open_refusal, Replayed};

use crate::perform::State;
use crate::scripts::{Answer, Call, Outcome, Replay, Stopped};
use field::Field;
use std::alloc::{AllocError, Global};
use tray::{OpenTray, open};

/// Opens a tray, performs the calls of a script on it, each on the sheet as the call before left it, and burns the
/// tray at the end.
pub fn replay<F: Field>(
    heap: Global,
    p: usize,
    capacity: usize,
    script: &[Call],
    sheet: &mut [u16],
) -> Result<Replay, Stopped>
    ensures refused_as_asked { open_refusal result ≡ (after_open p capacity sheet.old).refusal }
    ensures opened_shown { IfOk result (λ done. done.opened.items ≡ clear_sheet p capacity sheet.old) }
    ensures runs { IfOk result (λ done. Replayed (calculus F.Field.arithmetic F.Field.recip p) capacity (length sheet.old) script.now done) }
    ensures shelves_zero { take (room p capacity) sheet.new ≡ granted (open_refusal result) (replicate (room p capacity) 0) (take (room p capacity) sheet.old) }
{
    let (tray, owed) = open(p, capacity, sheet)?;
    // No `?` before the burn, which is owed for the tray.
    let opened = Vec::from_slice(heap, sheet);
    let (state, answers) = perform_all::<F>(heap, tray, script, sheet);
    let left = state.burn(owed, sheet);
    Ok(Replay {
        opened: opened?,
        answers: answers?,
        left,
    })
}

/// Performs the calls of a script one after another on a tray just opened, and gives the tray back with the
/// answers.
fn perform_all<F: Field>(
    heap: Global,
    tray: OpenTray,
    script: &[Call],
    sheet: &mut [u16],
) -> (State, Result<Vec<Answer>, AllocError>)
    requires just_opened { Opened (calculus F.Field.arithmetic F.Field.recip tray.p) tray.capacity (tray_of (State.Open tray) sheet.old) }
    ensures performed { IfOk result.1 (λ answers. Performed (calculus F.Field.arithmetic F.Field.recip tray.p) tray.capacity (length sheet.old) script.now answers.items (tray_of result.0 sheet.new)) }
    ensures degree { degree_of result.0 ≡ tray.p }
    ensures capacity { capacity_of result.0 ≡ tray.capacity }
{
    let mut state = State::Open(tray);
    let mut answers = Vec::new(heap);
    for call in script {
        let (next, outcome) = state.perform::<F>(heap, call, sheet);
        state = next;
        // No `?`: the tray comes back with the error, since a burn is owed for it.
        if let Err(error) = note(heap, &mut answers, outcome, sheet) {
            return (state, Err(error));
        }
    }
    (state, Ok(answers))
}

/// Notes one answer more: what came of a call, and the whole sheet after it. It takes the call's `Result` as it is,
/// since of `answers` nothing is known after an `and_then` whose closure pushes to them.
fn note(
    heap: Global,
    answers: &mut Vec<Answer>,
    outcome: Result<Outcome, AllocError>,
    sheet: &[u16],
) -> Result<(), AllocError>
    ensures { OnOk result (Notes outcome sheet.now answers.old.items answers.new.items) }
{
    answers.push(Answer {
        outcome: outcome?,
        sheet: Vec::from_slice(heap, sheet)?,
    })?;
    Ok(())
}
