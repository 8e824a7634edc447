//! Codes of Z_4591 in decimal.

ghost use Rattle.std.specs.Prelude.{◌≡◌, ℕ, ◌<◌, ◌≤◌, true, decimal, MatchOption, MatchResult, ◌≢◌};
ghost use Rattle.std.specs.Str.Parse.{digits_value};
ghost use Rattle.keytext.specs.Numbers.{is_decimal};

use crate::malformed::Unread;

/// How many codes there are.
const MODULUS: u16 = 4591;

/// The code that a text writes in decimal.
#[tactic(auto, using(crate::proofs::Decimals::writing))]
pub(crate) fn read_code(digits: &[u8]) -> Result<u16, Unread>
    ensures { MatchResult result (λ x. (x < 4591) × (digits.now ≡ decimal x)) (λ _. (x : ℕ) → x < 4591 → digits.now ≢ decimal x) }
{
    if !is_decimal(digits) {
        return Err(Unread::NotANumber);
    }
    match number_of(digits) {
        Some(number) if number < MODULUS => Ok(number),
        _ => Err(Unread::OutOfRange),
    }
}

/// Whether a text is a number in decimal: digits, at least one, and no zero before others.
fn is_decimal(digits: &[u8]) -> bool
    ensures { result ≡ is_decimal digits.now }
{
    match digits {
        [] => false,
        [b'0', rest @ ..] => rest.is_empty(),
        _ => digits.iter().all(u8::is_ascii_digit),
    }
}

/// The number that a text writes in decimal, if it has at most four digits, as each code has.
fn number_of(digits: &[u8]) -> Option<u16>
    requires { is_decimal digits.now ≡ true }
    ensures { MatchOption result (10000 ≤ digits_value 10 digits.now) (λ x. x ≡ digits_value 10 digits.now) }
{
    // By hand: with `str::from_utf8` and `parse` the reading of a line of codes took 1.7 times as long.
    // Nothing wraps: four digits write less than 10,000.
    match digits {
        [_, _, _, _, _, ..] => None,
        _ => Some(
            digits.iter().fold(0u16, |number, digit| {
                number.wrapping_mul(10).wrapping_add(u16::from(digit & 15))
            }),
        ),
    }
}
