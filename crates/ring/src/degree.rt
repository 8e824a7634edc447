//! The degree of the modulus.

ghost use Rattle.std.specs.Prelude.{◌≡◌, ℕ, ◌≤◌, IfOk};
ghost use Rattle.std.specs.Result.{result_err};
ghost use Rattle.ring.specs.Asked.{degree_asked};

use refusal::Refusal;
use std::marker::Model;

/// The least degree p.
pub const LEAST_DEGREE: usize = 2;

/// The greatest degree p.
pub const GREATEST_DEGREE: usize = 1277;

/// The degree p of the modulus x^p − x − 1, from 2 to 1277. A contract sees it as the number.
#[derive(Clone, Copy, PartialEq, Eq, Debug)]
pub struct Degree(usize);

impl Model for Degree {
    ghost Value = { ℕ };

    ghost view = { λ d. d.0 };

    ghost invariant = { λ d. (2 ≤ d.0) × (d.0 ≤ 1277) };

    ghost inverse = { λ p. record { 0 = p } };
}

impl TryFrom<usize> for Degree {
    type Error = Refusal;

    ghost try_from_gives = { λ p r. (result_err r ≡ degree_asked p) × IfOk r (λ d. d ≡ p) };

    fn try_from(p: usize) -> Result<Degree, Refusal> {
        match p {
            LEAST_DEGREE..=GREATEST_DEGREE => Ok(Degree(p)),
            _ => Err(Refusal::Degree),
        }
    }
}

impl Degree {
    /// The degree as a number.
    pub fn get(self) -> usize
        ensures is { result ≡ self }
        ensures least { 2 ≤ result }
        ensures most { result ≤ 1277 }
    {
        self.0
    }
}
