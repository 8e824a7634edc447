//! Reads scripts of calls on trays from the standard input, a call to a line, and prints a line for each.
//!
//! A line is one of these, its words a space apart and its numbers in decimal:
//!
//!     tray FIELD p capacity NUMBER..    opens a tray over Z_3, Z_5 or Z_4591, with these numbers on its sheet
//!     put NUMBER.. / NUMBER..           puts a numerator over a denominator
//!     take-back                         takes the last entry back
//!     close SCRATCH                     closes the tray with a scratch of so many numbers
//!     draw LENGTH SCRATCH               draws into an output of so many numbers, with such a scratch
//!     burn                              burns the tray
//!
//! The reply to a call is `accepted`, with what the call tells, or `refused` with the number of the refusal, and
//! then the whole sheet after the call. Where the tray's state has no such call, or there is no tray, it is
//! `not allowed`, and for any other text `not understood`. A tray that is there at the end is burnt.

#![tactic(auto)]

mod lines;
mod numbers;
mod replies;
mod sessions;

use lines::{Line, Unread, read_line};
use sessions::Session;
use std::io;
use std::io::Read;

fn main(rt: HostRuntime) -> io::Result<()> {
    run(&rt)
}

/// Reads the whole input, follows it line by line, and performs the last script if no burn ended it. Nothing is printed
/// before the input ends: whoever writes a script to its end before reading the replies would else wait for ever.
fn run(rt: &HostRuntime) -> io::Result<()> {
    let mut text = Vec::new(rt.alloc());
    rt.stdin().read_to_end(&mut text)?;
    let mut session = None;
    for line in text.split_inclusive(|byte| *byte == b'\n') {
        session = follow(rt, session, line.strip_suffix(b"\n").unwrap_or(line))?;
    }
    if let Some(session) = session {
        session.perform(rt)?;
    }
    Ok(())
}

/// Follows one line: it goes to the tray that is there, or is answered at once where there is none.
fn follow(rt: &HostRuntime, session: Option<Session>, text: &[u8]) -> io::Result<Option<Session>> {
    let line = read_line(rt.alloc(), text);
    match session {
        Some(session) => session.follow(rt, line),
        None => begin(rt, line),
    }
}

/// Answers a line that is read while there is no tray.
fn begin(rt: &HostRuntime, line: Result<Line, Unread>) -> io::Result<Option<Session>> {
    match line {
        Ok(Line::Tray { shape, sheet }) => return Session::open(rt, shape, sheet),
        Ok(Line::Call(_) | Line::Burn) => println!(rt; "not allowed")?,
        Err(Unread::NotUnderstood) => println!(rt; "not understood")?,
        Err(Unread::NoMemory(error)) => return Err(error.into()),
    }
    Ok(None)
}
