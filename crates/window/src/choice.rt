//! Choices by a secret.

ghost use Rattle.std.specs.Prelude.{◌≡◌, ◌<◌, ◌^◌, ◌&&◌, pos, neg_ℤ, if◌then◌else◌, int_lt, unsigned_abs};
ghost use Rattle.divstep.specs.Steps.{not_zero};

use std::marker::Model;
use std::ops::BitAnd;

/// Yes or no, as the number 1 or 0. It is no `bool`, since a compiler makes branches of masks that it can
/// see a `bool` in. A contract sees it as the answer.
#[derive(Clone, Copy)]
pub(crate) struct Choice(u16);

impl Model for Choice {
    ghost use Rattle.std.specs.Prelude.{◌≤◌, Bool, nat_eq, if◌then◌else◌};

    ghost Value = { Bool };

    ghost view = { λ c. nat_eq c.0 1 };

    ghost invariant = { λ c. c.0 ≤ 1 };

    ghost inverse = { λ b. record { 0 = (if b then 1 else 0) } };
}

/// Whether both are yes.
impl BitAnd for Choice {
    type Output = Choice;

    ghost bitand_gives = { λ a b r. r ≡ (a && b) };

    fn bitand(self, other: Choice) -> Choice {
        Choice(self.0 & other.0)
    }
}

impl Choice {
    /// Whether d > 0: bit 32 of d + 2^32 − 1.
    pub(crate) fn positive(d: i32) -> Choice
        ensures { result ≡ int_lt (pos 0) d }
    {
        Choice(((i64::from(d) + 4_294_967_295) as u64 >> 32) as u16)
    }

    /// Whether a number is not 0: bit 16 of a + 2^16 − 1.
    pub(crate) fn nonzero(a: u16) -> Choice
        ensures { result ≡ not_zero a }
    {
        Choice(((u32::from(a) + 65_535) >> 16) as u16)
    }

    /// a if yes, b if no; the same operations either way.
    fn pick(self, a: u16, b: u16) -> u16
        ensures { result ≡ (if self then a else b) }
    {
        let mask = 0u16.wrapping_sub(self.0);
        b ^ (mask & (a ^ b))
    }

    /// −d if yes, d if no; the same operations either way.
    pub(crate) fn negate(self, d: i32) -> i32
        requires { unsigned_abs d < 2 ^ 31 }
        ensures { result ≡ (if self then neg_ℤ d else d) }
    {
        let sign = 1 - 2 * self.0 as i32;
        sign * d
    }

    /// The array a if yes, b if no; the same operations either way.
    fn select<const N: usize>(self, a: [u16; N], b: [u16; N]) -> [u16; N]
        ensures { result ≡ (if self then a.entry else b.entry) }
    {
        let mut out = [0; N];
        // By index: of `from_fn` in a generic function a proof does not know the closure.
        for (k, x) in out.iter_mut().enumerate() {
            *x = self.pick(a[k], b[k]);
        }
        out
    }

    /// The two arrays, in each other's place if yes; the same operations either way.
    pub(crate) fn exchange<const N: usize>(self, a: [u16; N], b: [u16; N]) -> ([u16; N], [u16; N])
        ensures { result ≡ (if self then (b.entry, a.entry) else (a.entry, b.entry)) }
    {
        (self.select(b, a), self.select(a, b))
    }
}
