//! The readers of the lines.

ghost use Rattle.std.specs.Prelude.{◌≡◌, ℕ, ◌+◌, ◌<◌, List, ◌∷◌, ◌++◌, length, Some, decimal, IsTrue, MatchResult, ◌≢◌, ◌↔◌};
ghost use Rattle.keytext.specs.Cuts.{Stops};
ghost use Rattle.keytext.specs.Lines.{letter_of, line_of, digit, IsTritLine, IsNumberLine, NoneOf};

use crate::cut::cut;
use crate::malformed::{Line, Malformed, Unread};
use crate::number::read_code;

/// Reads a line of as many trits as `out` has places.
pub fn read_trits(line: Line, text: &[u8], out: &mut [u16]) -> Result<(), Malformed>
    ensures { MatchResult result (λ _. IsTritLine (letter_of line) text.now out.new) (λ e. (line_of e ≡ Some line) × NoneOf (length out.old) (IsTritLine (letter_of line) text.now)) }
{
    let digits = match after_letter(line, text)? {
        [_, digits @ ..] if digits.len() == out.len() => digits,
        _ => return Err(Malformed::WrongCount { line }),
    };
    // By index: of a `zip` of `out` a contract would not know what was written.
    for (k, x) in out.iter_mut().enumerate() {
        *x = read_trit(digits[k]).map_err(|why| why.at(line, k + 1))?;
    }
    Ok(())
}

/// Reads a line of as many codes of Z_4591 as `out` has places.
pub fn read_numbers(line: Line, text: &[u8], out: &mut [u16]) -> Result<(), Malformed>
    ensures { MatchResult result (λ _. IsNumberLine (letter_of line) text.now out.new) (λ e. (line_of e ≡ Some line) × NoneOf (length out.old) (IsNumberLine (letter_of line) text.now)) }
{
    let mut rest = after_letter(line, text)?;
    for (k, x) in out.iter_mut().enumerate() {
        (*x, rest) = next_code(rest).map_err(|why| why.at(line, k + 1))?;
    }
    if !rest.is_empty() {
        return Err(Malformed::WrongCount { line });
    }
    Ok(())
}

/// What follows the line's letter: nothing, or a space and more.
fn after_letter(line: Line, text: &[u8]) -> Result<&[u8], Malformed>
    ensures { MatchResult result (λ rest. (text.now ≡ letter_of line ∷ rest.now) × Stops 32 rest.now) (λ e. (line_of e ≡ Some line) × ((u : List ℕ) → Stops 32 u → text.now ≢ letter_of line ∷ u)) }
{
    match text {
        [first, rest @ ..] if *first == line.letter() && is_spaced(rest) => Ok(rest),
        _ => Err(Malformed::WrongLabel { line }),
    }
}

/// Whether a text is empty or begins with a space.
fn is_spaced(text: &[u8]) -> bool
    ensures { IsTrue result ↔ Stops 32 text.now }
{
    matches!(text, [] | [b' ', ..])
}

/// The trit that a digit stands for.
fn read_trit(byte: u8) -> Result<u16, Unread>
    ensures { MatchResult result (λ t. (t < 3) × (byte ≡ digit t)) (λ _. (t : ℕ) → t < 3 → byte ≢ digit t) }
{
    match byte {
        b'0'..=b'2' => Ok(u16::from(byte - b'0')),
        b'3'..=b'9' => Err(Unread::OutOfRange),
        _ => Err(Unread::NotANumber),
    }
}

/// The code after a space, and what follows it.
fn next_code(text: &[u8]) -> Result<(u16, &[u8]), Unread>
    requires { Stops 32 text.now }
    ensures { MatchResult result (λ x. (x.0 < 4591) × (text.now ≡ 32 ∷ (decimal x.0 ++ x.1.now)) × Stops 32 x.1.now) (λ _. (x : ℕ) (u : List ℕ) → x < 4591 → Stops 32 u → text.now ≢ 32 ∷ (decimal x ++ u)) }
{
    let (_, codes) = text.split_first().ok_or(Unread::Nothing)?;
    let (digits, after) = cut(codes, b' ');
    Ok((read_code(digits)?, after))
}
