//! What holds of every run of calls on a tray, over every field. The function carries the theorem in its
//! contract and does nothing.

ghost use Rattle.std.specs.Prelude.{ℕ, ◌≤◌};
ghost use Rattle.traylaw.specs.Calculus.{calculus};
ghost use Rattle.traylaw.specs.Law.{Law};

use field::Field;

/// For every p from 2 on, every run of calls on a tray of polynomials keeps the law.
pub fn tray_law<F: Field>()
    ensures { (p : ℕ) → 2 ≤ p → Law (calculus F.Field.arithmetic F.Field.recip p) }
{}
