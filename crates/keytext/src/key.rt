//! The reader of a key.

ghost use Rattle.std.specs.Prelude.{◌≡◌, [], length, MatchResult};
ghost use Rattle.keytext.specs.Cuts.{IsCut};
ghost use Rattle.keytext.specs.Keys.{IsKey, NoKey, TritsRead, NoTrits, IsLast};
ghost use Rattle.keytext.specs.Lines.{letter_of, NoneOf};

use crate::cut::cut;
use crate::line::{read_numbers, read_trits};
use crate::malformed::{Line, Malformed};

/// Reads the text of a key whose lists have as many numbers as the outputs: g, f and v are trits, and h
/// holds codes of Z_4591. The lists are the caller's memory and come one by one: a struct of four borrowed
/// lists would be made for this call alone, and be taken apart in it.
pub fn read_key(
    text: &[u8],
    g: &mut [u16],
    f: &mut [u16],
    v: &mut [u16],
    h: &mut [u16],
) -> Result<(), Malformed>
    ensures { MatchResult result (λ _. IsKey text.now g.new f.new v.new h.new) (λ _. NoKey (length g.old) (length f.old) (length v.old) (length h.old) text.now) }
{
    let below_g = next_trits(Line::G, text, g)?;
    let below_f = next_trits(Line::F, below_g, f)?;
    let below_v = next_trits(Line::V, below_f, v)?;
    last_numbers(below_v, h)
}

/// Reads the first line of a text as trits, and answers what follows its newline.
fn next_trits<'a>(line: Line, text: &'a [u8], out: &mut [u16]) -> Result<&'a [u8], Malformed>
    ensures { MatchResult result (λ rest. TritsRead (letter_of line) (length out.old) text.now out.new rest.now) (λ _. NoTrits (letter_of line) (length out.old) text.now) }
{
    let (front, back) = first_line(line, text)?;
    read_trits(line, front, out)?;
    Ok(back.strip_prefix(b"\n").unwrap_or(back))
}

/// Reads a text as the line h and nothing more.
fn last_numbers(text: &[u8], out: &mut [u16]) -> Result<(), Malformed>
    ensures { MatchResult result (λ _. IsLast text.now out.new) (λ _. NoneOf (length out.old) (IsLast text.now)) }
{
    let (front, back) = first_line(Line::H, text)?;
    read_numbers(Line::H, front, out)?;
    match back {
        [] | [_] => Ok(()),
        _ => Err(Malformed::TrailingText),
    }
}

/// Cuts a text before its first newline; an empty text has no line.
fn first_line(line: Line, text: &[u8]) -> Result<(&[u8], &[u8]), Malformed>
    ensures { MatchResult result (λ parts. IsCut 10 text.now parts.0.now parts.1.now) (λ _. text.now ≡ []) }
{
    if text.is_empty() {
        return Err(Malformed::Missing { line });
    }
    Ok(cut(text, b'\n'))
}
