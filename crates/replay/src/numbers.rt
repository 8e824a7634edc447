//! Numbers in decimal.

ghost use Rattle.std.specs.Prelude.{◌≡◌, ◌<◌, ◌≤◌, MatchOption};
ghost use Rattle.std.specs.Str.Parse.{IsNumeral, digits_value};

use std::str;

/// The number that a word writes in digits, if it is at most `most`.
pub(crate) fn read_number(word: &[u8], most: usize) -> Option<usize>
    ensures { MatchOption result (IsNumeral 10 word.now → most < digits_value 10 word.now) (λ x. IsNumeral 10 word.now × (x ≡ digits_value 10 word.now) × (x ≤ most)) }
{
    // Since `parse` takes a plus too.
    if word.starts_with(b"+") {
        return None;
    }
    let number = str::from_utf8(word).ok()?.parse().ok()?;
    (number <= most).then_some(number)
}
