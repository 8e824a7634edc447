//! What holds of division steps, over every field. Each function carries one theorem in its contract and
//! does nothing.

ghost use Rattle.std.specs.Prelude.{◌≡◌, ℕ, ◌≤◌, Bool, List, ℤ};
ghost use Rattle.field.specs.Meaning.{coded};
ghost use Rattle.field.specs.Rings.{Operations, CommutativeRing};
ghost use Rattle.ring.specs.Laws.{Polynomial};
ghost use Rattle.divstep.specs.Batches.{batched};
ghost use Rattle.divstep.specs.Laws.{Pair, StepLaws};
ghost use Rattle.divstep.specs.ReadOff.{Inverts};
ghost use Rattle.divstep.specs.Steps.{after, begins, not_zero};

use field::Field;

/// Steps read only the first coefficients of f and g, their matrix carries f and g over, and the matrix of
/// m steps from where n steps end, times that of the n, is the matrix of n + m steps.
pub fn step_laws<F: Field>()
    ensures { StepLaws (coded F.Field.arithmetic) not_zero }
{}

/// The same over any commutative ring of coefficients and any test that steps may swap by.
pub fn step_laws_over_any_coefficients()
    ensures { (O : Operations ℕ) → CommutativeRing O → (nonzero : ℕ → Bool) → StepLaws O nonzero }
{}

/// Batches of sixteen are single steps: for every n, every δ and every two lists of codes of one length.
pub fn batches_are_steps<F: Field>()
    ensures { (n : ℕ) (δ : ℤ) (f g : List ℕ) → Pair (coded F.Field.arithmetic) f g → batched (coded F.Field.arithmetic) not_zero n (begins (coded F.Field.arithmetic) n δ f g) ≡ after (coded F.Field.arithmetic) not_zero n δ f g }
{}

/// For every p from 2 on and every polynomial a: after 2p − 1 steps δ is 0 exactly when a has an inverse, and then what is
/// read off is that inverse.
pub fn inverse_is_read_off<F: Field>()
    ensures { (p : ℕ) → 2 ≤ p → (a : List ℕ) → Polynomial F.Field.arithmetic p a → Inverts F.Field.arithmetic p F.Field.recip a }
{}
