//! A tray that is there, with the lines that were read since it was opened.

use crate::lines::{FieldName, Line, Shape, Unread};
use crate::replies::{Numbers, Refused, Reply};
use residues::{Z3, Z5, Z4591};
use script::{Answer, Call, Replay, Stopped};
use std::alloc::Global;
use std::io;

/// What is to be replied to a line.
#[derive(Clone, Copy)]
enum Note {
    /// What the next of the calls answers.
    Answer,
    NotAllowed,
    NotUnderstood,
}

/// A tray that is there: what it was opened with, the calls since, and a note for each line since.
#[derive(Drop)]
pub(crate) struct Session {
    shape: Shape,
    sheet: Vec<u16>,
    calls: Vec<Call>,
    notes: Vec<Note>,
}

/// What a burn left: so many entries had not been drawn, and the sheet is this.
#[derive(Drop)]
pub(crate) struct Burnt {
    left: usize,
    sheet: Vec<u16>,
}

/// Performs a script over the field that its tray is over: a type, which its name picks.
fn replay(
    heap: Global,
    shape: Shape,
    calls: &[Call],
    sheet: &mut [u16],
) -> Result<Replay, Stopped> {
    let Shape { field, p, capacity } = shape;
    match field {
        FieldName::Z3 => script::replay::<Z3>(heap, p, capacity, calls, sheet),
        FieldName::Z5 => script::replay::<Z5>(heap, p, capacity, calls, sheet),
        FieldName::Z4591 => script::replay::<Z4591>(heap, p, capacity, calls, sheet),
    }
}

impl Session {
    /// Opens a tray, or prints why it is refused.
    pub(crate) fn open(
        rt: &HostRuntime,
        shape: Shape,
        sheet: Vec<u16>,
    ) -> io::Result<Option<Session>> {
        let mut copy = sheet.clone()?;
        // No `?`: of the two errors one is printed, and the other ends the program.
        match replay(rt.alloc(), shape, &[], &mut copy) {
            Ok(_) => Ok(Some(Session {
                shape,
                sheet,
                calls: Vec::new(rt.alloc()),
                notes: Vec::new(rt.alloc()),
            })),
            Err(Stopped::Refused(refusal)) => {
                println!(rt; "{} |{}", Refused(refusal), Numbers(&sheet))?;
                Ok(None)
            }
            Err(Stopped::NoMemory(error)) => Err(error.into()),
        }
    }

    /// Follows one line: a burn ends the session, and any other line is noted.
    pub(crate) fn follow(
        mut self,
        rt: &HostRuntime,
        line: Result<Line, Unread>,
    ) -> io::Result<Option<Session>> {
        let note = match line {
            Ok(Line::Call(call)) => {
                self.calls.push(call)?;
                Note::Answer
            }
            Ok(Line::Tray { sheet: _sheet, .. }) => Note::NotAllowed,
            Ok(Line::Burn) => {
                self.burn(rt)?;
                return Ok(None);
            }
            Err(Unread::NotUnderstood) => Note::NotUnderstood,
            Err(Unread::NoMemory(error)) => return Err(error.into()),
        };
        self.notes.push(note)?;
        Ok(Some(self))
    }

    /// Performs the script, and prints the reply to the burn too.
    fn burn(self, rt: &HostRuntime) -> io::Result<()> {
        let Burnt { left, sheet } = self.perform(rt)?;
        println!(rt; "accepted left {left} |{}", Numbers(&sheet))
    }

    /// Performs the script, and prints the replies to the line that opened the tray and to those since.
    pub(crate) fn perform(self, rt: &HostRuntime) -> io::Result<Burnt> {
        let Session {
            shape,
            mut sheet,
            calls,
            notes,
        } = self;
        let Replay {
            opened,
            answers,
            left,
        } = replay(rt.alloc(), shape, &calls, &mut sheet).map_err(|stopped| match stopped {
            Stopped::Refused(_) => io::Error::other("an open was accepted and then refused"),
            Stopped::NoMemory(error) => error.into(),
        })?;
        println!(rt; "accepted |{}", Numbers(&opened))?;
        tell_notes(rt, &notes, &answers)?;
        Ok(Burnt { left, sheet })
    }
}

/// Prints a reply for each note.
fn tell_notes(rt: &HostRuntime, notes: &[Note], answers: &[Answer]) -> io::Result<()> {
    let mut answers = answers.iter();
    for note in notes {
        match note {
            Note::Answer => {
                let answer = answers
                    .next()
                    .ok_or_else(|| io::Error::other("a call has no answer"))?;
                rt.println(Reply(answer))?;
            }
            Note::NotAllowed => println!(rt; "not allowed")?,
            Note::NotUnderstood => println!(rt; "not understood")?,
        }
    }
    Ok(())
}
