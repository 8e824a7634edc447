//! Products of polynomials.
//!
//! The product is the plain product of the two lists, 2p − 1 coefficients, folded by the rule
//! x^p = x + 1: coefficient p + k comes back at k and at k + 1. One coefficient more is asked of the
//! plain product, which is 0, so that each place of the fold reads alike.
//! The lengths of the lists are asked by `requires`, since the type of a slice has no length.

ghost use Rattle.std.specs.Prelude.{◌≡◌, ◌+◌, ◌-◌, ◌<◌, ◌≤◌, length, is_ok, if◌then◌else◌, slice_index};
ghost use Rattle.std.specs.Result.{result_err};
ghost use Rattle.refusal.specs.Questions.{first_no};
ghost use Rattle.field.specs.Meaning.{coded};
ghost use Rattle.ring.specs.Asked.{operands_asked};
ghost use Rattle.ring.specs.Polynomials.{product as product_of, fold as fold_of};

use crate::degree::GREATEST_DEGREE;
use crate::questions::ask_operands;
use field::Field;
use refusal::Refusal;

/// The product of two polynomials of p codes, by the rule x^p = x + 1. (Shaped as `sum`, a question and the work: a
/// function for both would take the work as a closure and be longer.)
pub fn product<F: Field>(p: usize, a: &[u16], b: &[u16], out: &mut [u16]) -> Result<(), Refusal>
    ensures refused_as_asked { result_err result ≡ first_no (operands_asked F.Field.arithmetic.size p a.now b.now (length out.old)) }
    ensures out_is_product { out.new ≡ (if is_ok result then product_of (coded F.Field.arithmetic) p a.now b.now else out.old) }
{
    ask_operands::<F>(p, a, b, out.len())?;
    multiply::<F>(a, b, out);
    Ok(())
}

/// The product of two polynomials, unasked.
pub(crate) fn multiply<F: Field>(a: &[u16], b: &[u16], out: &mut [u16])
    requires least { 2 ≤ length out.old }
    requires most { length out.old ≤ 1277 }
    requires left { length a.now ≡ length out.old }
    requires right { length b.now ≡ length out.old }
    ensures { out.new ≡ product_of (coded F.Field.arithmetic) (length out.old) a.now b.now }
{
    // There is no heap here: an array has room for the greatest degree.
    let mut plain = [0u16; 2 * GREATEST_DEGREE];
    let end = 2 * out.len();
    convolve::<F>(a, b, &mut plain[0..end], out);
}

/// The plain product in `plain`, and from it the product in `out`.
fn convolve<F: Field>(a: &[u16], b: &[u16], plain: &mut [u16], out: &mut [u16])
    requires least { 2 ≤ length out.old }
    requires left { length a.now ≡ length out.old }
    requires right { length b.now ≡ length out.old }
    requires room { length plain.old ≡ length out.old + length out.old }
    ensures { out.new ≡ product_of (coded F.Field.arithmetic) (length out.old) a.now b.now }
{
    F::product(a, b, plain);
    fold::<F>(plain, out);
}

/// Writes what 2p coefficients, the last of them 0, are modulo x^p − x − 1.
fn fold<F: Field>(plain: &[u16], out: &mut [u16])
    requires least { 1 ≤ length out.old }
    requires double { length plain.now ≡ length out.old + length out.old }
    ensures { out.new ≡ fold_of (coded F.Field.arithmetic) (length out.old) plain.now }
{
    let p = out.len();
    let mut carried = 0;
    for (k, x) in out.iter_mut().enumerate() {
        *x = folded::<F>(plain[k], plain[p + k], carried);
        carried = plain[p + k];
    }
}

/// A coefficient of the fold: the one that is there, the one that comes back to it, and the one carried to it.
fn folded<F: Field>(there: u16, back: u16, carried: u16) -> u16
    ensures { result ≡ (coded F.Field.arithmetic).plus there ((coded F.Field.arithmetic).plus back carried) }
{
    F::add(there, F::add(back, carried))
}
