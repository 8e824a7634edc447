//! Any number of division steps, sixteen at a time.
//!
//! A step looks at δ and at the constants of f and g, and at nothing else: these say whether it swaps,
//! and they are its two factors. Coefficient k of f and g after the step comes from their coefficients
//! up to k + 1 before it. So step m looks at δ and at what the first m coefficients of f and g came to,
//! and sixteen codes of each are enough for sixteen steps. A batch makes its steps on such a window, by
//! value, and keeps the matrix of these steps beside it: each entry has degree 16 at most, which is 17
//! coefficients. The window itself is then let go: each division by x brought a 0 in at its end, where
//! a longer list has another coefficient. The lists become what the steps would have made of them all
//! the same: the matrix of m steps times the column (f, g) is x^m times the new column, so the first m
//! coefficients of that product are left out; and the matrix of the run is multiplied from the left by
//! that of the batch. These are a few products of long lists, which the field has a fast kernel for.

ghost use Rattle.std.specs.Prelude.{◌≡◌, ◌+◌, ◌≤◌, slice_index, unsigned_abs};
ghost use Rattle.field.specs.Convolution.{tabulate};
ghost use Rattle.field.specs.Meaning.{coded};
ghost use Rattle.divstep.specs.Batches.{jump as jumped, batched};
ghost use Rattle.divstep.specs.Steps.{lists, begins, steps, not_zero};
ghost use Rattle.window.specs.Windows.{held_in};
ghost use Rattle.steps.specs.Columns.{IsColumn};

use crate::apply::{apply, first_codes};
use field::Field;
use window::batch::batch;
use window::{BATCH, Window};

/// The first m steps on the windows of f and g.
fn first_steps<F: Field>(delta: i32, m: usize, f: &[u16], g: &[u16]) -> Window
    requires short { m ≤ 16 }
    requires small { unsigned_abs delta ≤ 50000 }
    ensures state { held_in result ≡ steps (lists (coded F.Field.arithmetic)) not_zero m (begins (coded F.Field.arithmetic) 16 delta (tabulate 16 (λ k. slice_index f.now k)) (tabulate 16 (λ k. slice_index g.now k))) }
    ensures small { unsigned_abs result.delta ≤ unsigned_abs delta + m }
{
    batch::<F>(delta, first_codes(f), first_codes(g), m)
}

/// δ, f and g, the rows (u, v) and (q, r) of the matrix, and scratch for the products with a batch's matrix.
/// The bound of δ grows with each step, so the methods ask for it.
#[derive(Drop)]
pub(crate) struct Lists<'a> {
    pub delta: i32,
    pub f: &'a mut [u16],
    pub g: &'a mut [u16],
    pub u: &'a mut [u16],
    pub v: &'a mut [u16],
    pub q: &'a mut [u16],
    pub r: &'a mut [u16],
    pub scratch: &'a mut [u16],
    ghost column: { IsColumn f.now g.now scratch.now },
    ghost left: { IsColumn u.now q.now scratch.now },
    ghost right: { IsColumn v.now r.now scratch.now },
}

impl Lists<'_> {
    ghost use Rattle.steps.specs.Held.{state_in, SameSlices};

    /// Makes m steps, as one batch.
    fn jump<F: Field>(&mut self, m: usize)
        requires short { m ≤ 16 }
        requires small { unsigned_abs self.old.delta ≤ 50000 }
        ensures state { state_in self.new ≡ jumped (coded F.Field.arithmetic) not_zero m (state_in self.old) }
        ensures small { unsigned_abs self.new.delta ≤ unsigned_abs self.old.delta + m }
        ensures same { SameSlices self.new self.old }
    {
        // Of a field's list nothing is known once it was lent to be read; of a variable's, it is.
        let f = &mut *self.f;
        let g = &mut *self.g;
        let w = first_steps::<F>(self.delta, m, f, g);
        self.delta = w.delta;
        apply::<F>(&w, m, f, g, self.scratch);
        apply::<F>(&w, 0, self.u, self.q, self.scratch);
        apply::<F>(&w, 0, self.v, self.r, self.scratch);
    }

    /// Makes n steps.
    pub(crate) fn run<F: Field>(&mut self, n: usize)
        requires few { n ≤ 2553 }
        requires small { unsigned_abs self.old.delta ≤ 2553 }
        ensures state { state_in self.new ≡ batched (coded F.Field.arithmetic) not_zero n (state_in self.old) }
        ensures small { unsigned_abs self.new.delta ≤ unsigned_abs self.old.delta + n }
        ensures same { SameSlices self.new self.old }
    {
        for _ in 0..n / BATCH {
            self.jump::<F>(BATCH);
        }
        if n % BATCH > 0 {
            self.jump::<F>(n % BATCH);
        }
    }
}
