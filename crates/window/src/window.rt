//! The window on which a batch works.

ghost use Rattle.std.specs.Prelude.{◌≡◌, ◌+◌, ◌<◌, ◌^◌, [], ◌∷◌, ◌++◌, drop, take, replicate, slice_index, pos, ◌+ℤ◌, unsigned_abs};
ghost use Rattle.field.specs.Convolution.{mixed as mixed_of};
ghost use Rattle.field.specs.Meaning.{coded};
ghost use Rattle.divstep.specs.Steps.{lists, begins, swaps as swaps_of, swapped, step, state_of, not_zero};

use crate::arrays::{down, mixed, up};
use crate::choice::Choice;
use field::Field;

/// How many steps a batch has at most.
pub const BATCH: usize = 16;

/// The first sixteen codes of f and g, and the matrix of the batch, by value. Other crates read δ and the
/// matrix alone.
#[derive(Clone, Copy)]
pub struct Window {
    pub delta: i32,
    pub(crate) f: [u16; BATCH],
    pub(crate) g: [u16; BATCH],
    pub u: [u16; BATCH + 1],
    pub v: [u16; BATCH + 1],
    pub q: [u16; BATCH + 1],
    pub r: [u16; BATCH + 1],
}

impl Window {
    ghost use Rattle.window.specs.Windows.{held_in, code_lists};

    /// The start, with the matrix 1.
    pub(crate) fn new<F: Field>(delta: i32, f: [u16; BATCH], g: [u16; BATCH]) -> Window
        ensures held { held_in result ≡ state_of delta f g (1 ∷ replicate 16 0) (replicate 17 0) (replicate 17 0) (1 ∷ replicate 16 0) }
        ensures begun { held_in result ≡ begins (coded F.Field.arithmetic) 16 delta f g }
    {
        let none = [0; BATCH + 1];
        let mut one = none;
        one[0] = 1;
        Window {
            delta,
            f,
            g,
            u: one,
            v: none,
            q: none,
            r: one,
        }
    }

    /// Whether a step swaps: where δ > 0 and g(0) ≠ 0. (The bound is the step's.)
    fn swaps<F: Field>(&self) -> Choice
        requires { unsigned_abs self.now.delta + 1 < 2 ^ 31 }
        ensures { result ≡ swaps_of (code_lists (coded F.Field.arithmetic)) not_zero (held_in self.now) }
    {
        Choice::positive(self.delta) & Choice::nonzero(self.g[0])
    }

    /// f and g and the rows in each other's place, and −δ, if yes; the same operations either way.
    fn swap_if(self, swaps: Choice) -> Window
        requires { unsigned_abs self.delta < 2 ^ 31 }
        ensures { held_in result ≡ swapped swaps (held_in self) }
    {
        let (f, g) = swaps.exchange(self.f, self.g);
        let (u, q) = swaps.exchange(self.u, self.q);
        let (v, r) = swaps.exchange(self.v, self.r);
        Window {
            delta: swaps.negate(self.delta),
            f,
            g,
            u,
            v,
            q,
            r,
        }
    }

    /// What a step does after the swap, by the constants of f and g.
    fn reduce<F: Field>(self) -> Window
        requires { unsigned_abs self.delta + 1 < 2 ^ 31 }
        ensures counted { result.delta ≡ self.delta +ℤ pos 1 }
        ensures f_stays { result.f ≡ self.f }
        ensures g_reduced { result.g ≡ drop 1 (mixed_of (coded F.Field.arithmetic) (slice_index self.f 0) self.g (slice_index self.g 0) self.f) ++ 0 ∷ [] }
        ensures u_shifted { result.u ≡ 0 ∷ take 16 self.u }
        ensures v_shifted { result.v ≡ 0 ∷ take 16 self.v }
        ensures q_reduced { result.q ≡ mixed_of (coded F.Field.arithmetic) (slice_index self.f 0) self.q (slice_index self.g 0) self.u }
        ensures r_reduced { result.r ≡ mixed_of (coded F.Field.arithmetic) (slice_index self.f 0) self.r (slice_index self.g 0) self.v }
    {
        let (f0, g0) = (self.f[0], self.g[0]);
        Window {
            delta: self.delta + 1,
            f: self.f,
            g: down(mixed::<F, _>(f0, self.g, g0, self.f)),
            u: up(self.u),
            v: up(self.v),
            q: mixed::<F, _>(f0, self.q, g0, self.u),
            r: mixed::<F, _>(f0, self.r, g0, self.v),
        }
    }

    /// One division step: the swap, and then the reduction.
    pub(crate) fn step<F: Field>(self) -> Window
        requires { unsigned_abs self.delta + 1 < 2 ^ 31 }
        ensures { held_in result ≡ step (lists (coded F.Field.arithmetic)) not_zero (held_in self) }
    {
        self.swap_if(self.swaps::<F>()).reduce::<F>()
    }
}
