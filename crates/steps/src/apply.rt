//! The matrix of a batch, applied to whole lists.

ghost use Rattle.std.specs.Prelude.{◌≡◌, ◌+◌, ◌≤◌, length, slice_index};
ghost use Rattle.field.specs.Convolution.{tabulate};
ghost use Rattle.field.specs.Meaning.{coded};
ghost use Rattle.divstep.specs.Batches.{row_times};
ghost use Rattle.steps.specs.Columns.{IsColumn};

use field::{Field, at};
use std::array::from_fn;
use window::{BATCH, Window};

/// The first sixteen coefficients, where a missing one is 0.
pub(crate) fn first_codes(a: &[u16]) -> [u16; BATCH]
    ensures { result ≡ tabulate 16 (λ k. slice_index a.now k) }
{
    from_fn(|k| at(a, k))
}

/// a·x + b·y without its first `skip` coefficients, in the place of y. Both products are made first.
fn row_times<F: Field>(
    skip: usize,
    a: &[u16],
    b: &[u16],
    x: &[u16],
    y: &mut [u16],
    left: &mut [u16],
    right: &mut [u16],
)
    requires long { length x.now ≡ length y.old }
    requires left { length left.old ≡ length y.old + skip }
    requires right { length right.old ≡ length y.old + skip }
    ensures { y.new ≡ row_times (coded F.Field.arithmetic) skip a.now b.now x.now y.old }
{
    F::product(a, x, left);
    F::product(b, y, right);
    F::sum(&left[skip..], &right[skip..], y);
}

/// The matrix of w times the column (x, y), without its first `skip` coefficients, in the place of the
/// column. Both rows read the old x, so the first waits in the scratch for the second.
pub(crate) fn apply<F: Field>(
    w: &Window,
    skip: usize,
    x: &mut [u16],
    y: &mut [u16],
    scratch: &mut [u16],
)
    requires skip { skip ≤ 16 }
    requires column { IsColumn x.old y.old scratch.old }
    ensures first { x.new ≡ row_times (coded F.Field.arithmetic) skip w.now.u w.now.v x.old y.old }
    ensures second { y.new ≡ row_times (coded F.Field.arithmetic) skip w.now.q w.now.r x.old y.old }
{
    let n = x.len();
    let (left, rest) = scratch.split_at_mut(n + skip);
    let (right, rest) = rest.split_at_mut(n + skip);
    let row = &mut rest[..n];
    row.copy_from_slice(y);
    row_times::<F>(skip, &w.u, &w.v, x, row, left, right);
    row_times::<F>(skip, &w.q, &w.r, x, y, left, right);
    x.copy_from_slice(row);
}
