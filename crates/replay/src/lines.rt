//! What the lines of the input say.

ghost use Rattle.std.specs.Prelude.{◌≡◌, ◌<◌, ◌≤◌, map, IfOk, MatchResult, ◌≢◌, alloc_error};
ghost use Rattle.std.specs.Str.Parse.{IsNumeral, digits_value};
ghost use Rattle.replay.specs.Names.{name_of};
ghost use Rattle.replay.specs.declared.lines.FieldName.{FieldName};
ghost use Rattle.replay.specs.declared.lines.Unread.TheVariants.{NoMemory};

use crate::numbers::read_number;
use script::Call;
use std::alloc::{AllocError, AllocFailed, Global};

/// The greatest length that a line can ask for.
const GREATEST_LENGTH: usize = 1_000_000;

/// The greatest number that a list can hold.
const GREATEST_NUMBER: usize = u16::MAX as usize;

/// A field that a tray can be over.
#[derive(Clone, Copy)]
pub(crate) enum FieldName {
    Z3,
    Z5,
    Z4591,
}

impl TryFrom<&[u8]> for FieldName {
    type Error = Unread;

    ghost try_from_gives = { λ word r. MatchResult r (λ field. word.now ≡ name_of field) (λ _. (field : FieldName) → word.now ≢ name_of field) };

    fn try_from(word: &[u8]) -> Result<FieldName, Unread> {
        match word {
            b"Z_3" => Ok(FieldName::Z3),
            b"Z_5" => Ok(FieldName::Z5),
            b"Z_4591" => Ok(FieldName::Z4591),
            _ => Err(Unread::NotUnderstood),
        }
    }
}

/// What a tray is opened with besides its sheet.
#[derive(Clone, Copy)]
pub(crate) struct Shape {
    pub(crate) field: FieldName,
    pub(crate) p: usize,
    pub(crate) capacity: usize,
}

/// What a line says.
#[derive(Drop)]
pub(crate) enum Line {
    /// A tray is opened.
    Tray { shape: Shape, sheet: Vec<u16> },
    /// A call is made on the tray.
    Call(Call),
    /// The tray is burnt.
    Burn,
}

/// Why a line is not read.
#[derive(Drop)]
pub(crate) enum Unread {
    NotUnderstood,
    NoMemory(AllocError),
}

impl From<AllocError> for Unread {
    ghost from_gives = { λ error unread. unread ≡ NoMemory error };

    fn from(error: AllocError) -> Unread {
        Unread::NoMemory(error)
    }
}

impl<T: Drop> From<AllocFailed<T>> for Unread {
    ghost from_gives = { λ _ unread. unread ≡ NoMemory alloc_error };

    fn from(refused: AllocFailed<T>) -> Unread {
        Unread::NoMemory(refused.into())
    }
}

/// What a line says by its words, which stand before, between and after its spaces.
pub(crate) fn read_line(heap: Global, text: &[u8]) -> Result<Line, Unread> {
    let words: Vec<&[u8]> = text.split(|byte| *byte == b' ').collect(heap)?;
    match words.as_slice() {
        [b"tray", field, p, capacity, sheet @ ..] => Ok(Line::Tray {
            shape: read_shape(field, p, capacity)?,
            sheet: read_list(heap, sheet)?,
        }),
        [b"put", lists @ ..] => Ok(Line::Call(read_put(heap, lists)?)),
        [b"take-back"] => Ok(Line::Call(Call::TakeBack)),
        [b"close", scratch] => Ok(Line::Call(Call::Close {
            scratch: read_length(scratch)?,
        })),
        [b"draw", length, scratch] => Ok(Line::Call(Call::Draw {
            length: read_length(length)?,
            scratch: read_length(scratch)?,
        })),
        [b"burn"] => Ok(Line::Burn),
        _ => Err(Unread::NotUnderstood),
    }
}

/// Reads the words for a field, a degree and a capacity.
fn read_shape(field: &[u8], p: &[u8], capacity: &[u8]) -> Result<Shape, Unread> {
    Ok(Shape {
        field: FieldName::try_from(field)?,
        p: read_up_to(p, usize::MAX)?,
        capacity: read_up_to(capacity, usize::MAX)?,
    })
}

/// Reads the words of a put: a numerator, a slash and a denominator.
fn read_put(heap: Global, words: &[&[u8]]) -> Result<Call, Unread> {
    let slash = words
        .iter()
        .position(|word| *word == b"/".as_slice())
        .ok_or(Unread::NotUnderstood)?;
    Ok(Call::Put {
        numerator: read_list(heap, &words[..slash])?,
        denominator: read_list(heap, &words[slash + 1..])?,
    })
}

/// Reads a number from each word. It is a loop, since of a `try_collect` the search finds no equation for the whole list.
fn read_list(heap: Global, words: &[&[u8]]) -> Result<Vec<u16>, Unread>
    ensures { IfOk result (λ list. list.items ≡ map (λ word. digits_value 10 word.now) words.now) }
{
    let mut list = Vec::new(heap);
    for word in words {
        list.push(read_up_to(word, GREATEST_NUMBER)? as u16)?;
    }
    Ok(list)
}

/// Reads the length of a list that a call is lent.
fn read_length(word: &[u8]) -> Result<usize, Unread>
    ensures { MatchResult result (λ x. IsNumeral 10 word.now × (x ≡ digits_value 10 word.now) × (x ≤ 1000000)) (λ _. IsNumeral 10 word.now → 1000000 < digits_value 10 word.now) }
{
    read_up_to(word, GREATEST_LENGTH)
}

/// Reads a number that is at most `most`.
fn read_up_to(word: &[u8], most: usize) -> Result<usize, Unread>
    ensures { MatchResult result (λ x. IsNumeral 10 word.now × (x ≡ digits_value 10 word.now) × (x ≤ most)) (λ _. IsNumeral 10 word.now → most < digits_value 10 word.now) }
{
    read_number(word, most).ok_or(Unread::NotUnderstood)
}
