//! What is wrong with a text.

ghost use Rattle.std.specs.Prelude.{◌≡◌, Some};
ghost use Rattle.keytext.specs.Lines.{letter_of, line_of};
ghost use Rattle.keytext.specs.Messages.{name_of, message_of};

use std::fmt;

/// A line of the text.
#[derive(Clone, Copy, PartialEq, Eq, Debug)]
pub enum Line {
    G,
    F,
    V,
    H,
}

impl Line {
    /// The letter that the line begins with. A method, since `u8::from(line)` would not say which number it gives.
    pub fn letter(self) -> u8
        ensures { result ≡ letter_of self }
    {
        match self {
            Line::G => b'g',
            Line::F => b'f',
            Line::V => b'v',
            Line::H => b'h',
        }
    }
}

impl fmt::Display for Line {
    ghost output = { λ line. Some (name_of line) };

    fn fmt<W: fmt::Write>(&self, f: &mut fmt::Formatter<W>) -> fmt::Result {
        write!(f, "line {}", char::from(self.letter()))
    }
}

/// Why a text is no key. A place is counted from 1; it stands beside its line, since most variants have a line alone.
#[derive(Clone, Copy, PartialEq, Eq, Debug)]
pub enum Malformed {
    /// The text ends before this line.
    Missing { line: Line },
    /// The line does not begin with its letter alone.
    WrongLabel { line: Line },
    /// The line has not as many numbers as the key has coefficients.
    WrongCount { line: Line },
    /// What stands at this place of the line is no number, or is not written as numbers are.
    NotANumber { line: Line, place: usize },
    /// The number at this place of the line is too large.
    OutOfRange { line: Line, place: usize },
    /// Something follows the last line.
    TrailingText,
}

/// Written out, since a derived one would promise no text.
impl fmt::Display for Malformed {
    ghost output = { λ why. Some (message_of why) };

    fn fmt<W: fmt::Write>(&self, f: &mut fmt::Formatter<W>) -> fmt::Result {
        match self {
            Malformed::Missing { line } => write!(f, "{line}: the line is missing"),
            Malformed::WrongLabel { line } => write!(f, "{line}: wrong label"),
            Malformed::WrongCount { line } => write!(f, "{line}: wrong count of numbers"),
            Malformed::NotANumber { line, place } => write!(
                f,
                "{line}: number {place} is not written as a number"
            ),
            Malformed::OutOfRange { line, place } => write!(
                f,
                "{line}: number {place} is out of range"
            ),
            Malformed::TrailingText => write!(f, "text after line h"),
        }
    }
}

/// Why what stands at a place of a line is not read.
#[derive(Clone, Copy)]
pub(crate) enum Unread {
    /// Nothing stands there.
    Nothing,
    /// It is no number, or is not written as numbers are.
    NotANumber,
    /// The number is too large.
    OutOfRange,
}

impl Unread {
    /// What is wrong with a text where this is so at a place of a line.
    pub(crate) fn at(self, line: Line, place: usize) -> Malformed
        ensures { line_of result ≡ Some line }
    {
        match self {
            Unread::Nothing => Malformed::WrongCount { line },
            Unread::NotANumber => Malformed::NotANumber { line, place },
            Unread::OutOfRange => Malformed::OutOfRange { line, place },
        }
    }
}
