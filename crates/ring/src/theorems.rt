//! What holds of all polynomials, over every field and for every p from 2 on. Each function carries one
//! theorem in its contract and does nothing; none of them rests on x^p − x − 1 being irreducible.

ghost use Rattle.std.specs.Prelude.{ℕ, ◌≤◌};
ghost use Rattle.field.specs.Rings.{Operations, CommutativeRing};
ghost use Rattle.ring.specs.Laws.{RingLaws, UnitLaws};
ghost use Rattle.ring.specs.Polynomials.{polynomials};

use field::Field;

/// Sums, differences and products of polynomials are polynomials, and keep the laws of a commutative ring.
pub fn ring_laws<F: Field>()
    ensures { (p : ℕ) → 2 ≤ p → RingLaws F.Field.arithmetic p }
{}

/// Inverses are unique, a product has one exactly when both factors have, and a zero divisor has none.
pub fn unit_laws<F: Field>()
    ensures { (p : ℕ) → 2 ≤ p → UnitLaws F.Field.arithmetic p }
{}

/// The ring laws need no reciprocals: the polynomials over any commutative ring are a commutative ring.
pub fn ring_over_any_coefficients()
    ensures { (O : Operations ℕ) → CommutativeRing O → (p : ℕ) → 2 ≤ p → CommutativeRing (polynomials O p) }
{}
