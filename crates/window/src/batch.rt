//! Up to sixteen division steps on a window.

ghost use Rattle.std.specs.Prelude.{◌≡◌, ◌+◌, ◌≤◌, unsigned_abs};
ghost use Rattle.field.specs.Meaning.{coded};
ghost use Rattle.divstep.specs.Steps.{lists, begins, steps, not_zero};
ghost use Rattle.window.specs.Windows.{held_in};

use crate::window::{BATCH, Window};
use field::Field;

/// The first m steps, with their matrix, from δ and the first sixteen codes of f and g. (What bounds δ grows with
/// each step, so it is no invariant of a window.)
pub fn batch<F: Field>(delta: i32, f: [u16; BATCH], g: [u16; BATCH], m: usize) -> Window
    requires short { m ≤ 16 }
    requires small { unsigned_abs delta ≤ 50000 }
    ensures state { held_in result ≡ steps (lists (coded F.Field.arithmetic)) not_zero m (begins (coded F.Field.arithmetic) 16 delta f g) }
    ensures small { unsigned_abs result.delta ≤ unsigned_abs delta + m }
{
    let mut w = Window::new::<F>(delta, f, g);
    for _ in 0..m {
        w = w.step::<F>();
    }
    w
}
