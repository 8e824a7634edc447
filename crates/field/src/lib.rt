//! Finite fields on numbers of 16 bits.
//!
//! A field has s elements, and its codes are the numbers 0 to s − 1: each code stands for one element,
//! code 0 for zero and code 1 for one. `ring`, `steps` and `tray` are generic over this trait and
//! proved from its laws alone.

#![tactic(auto)]

ghost use Rattle.std.specs.Prelude.{◌≡◌, ℕ, ◌+◌, ◌<◌, ◌≤◌, length, Option, nat_lt, slice_index};
ghost use Rattle.field.specs.Meaning.{Arithmetic, ArithmeticLaws, ReciprocalLaws, code, coded, all_codes};
ghost use Rattle.field.specs.Convolution.{coefficient, added, convolution, mixed};

/// A finite field by its meaning: the size and four functions on codes, and the laws that they keep.
/// Every call reads a number that is no code as 0.
pub trait Field {
    /// The size, and the sum, difference and product of codes.
    ghost arithmetic: { Arithmetic };

    /// The reciprocal of a code.
    ghost recip: { ℕ → Option ℕ };

    /// How many elements the field has.
    fn size() -> u16
        ensures { result ≡ arithmetic.size };

    fn add(a: u16, b: u16) -> u16
        ensures { result ≡ (coded arithmetic).plus a b };

    fn sub(a: u16, b: u16) -> u16
        ensures { result ≡ (coded arithmetic).minus a b };

    fn mul(a: u16, b: u16) -> u16
        ensures { result ≡ (coded arithmetic).times a b };

    /// The code whose product with `a` is 1; zero alone has none.
    fn reciprocal(a: u16) -> Option<u16>
        ensures { result ≡ recip (code arithmetic.size a) };

    /// Coefficient k of the product of two lists of any lengths, the constants first.
    fn coefficient(a: &[u16], b: &[u16], k: usize) -> u16
        ensures { result ≡ coefficient (coded arithmetic) a.now b.now k }
    {
        let mut sum = 0;
        for (i, x) in a[..terms(a.len(), k)].iter().enumerate() {
            sum = Self::add(sum, Self::mul(*x, at(b, k - i)));
        }
        sum
    }

    /// The sum of two lists of any lengths, the constants first: as many coefficients as `out` has. Lists that are
    /// long enough are added without a question at each place, which a processor does several places at a time.
    fn sum(a: &[u16], b: &[u16], out: &mut [u16])
        ensures { out.new ≡ added (coded arithmetic) (length out.old) a.now b.now }
    {
        if a.len() < out.len() || b.len() < out.len() {
            for (i, x) in out.iter_mut().enumerate() {
                *x = Self::add(at(a, i), at(b, i));
            }
        } else {
            // By index: of a `zip` of `out` a contract would not know what was written.
            for (k, x) in out.iter_mut().enumerate() {
                *x = Self::add(a[k], b[k]);
            }
        }
    }

    /// The product term by term. An implementation keeps this body.
    fn product_by_terms(a: &[u16], b: &[u16], out: &mut [u16])
        ensures { out.new ≡ convolution (coded arithmetic) (length out.old) a.now b.now }
    {
        for (k, place) in out.iter_mut().enumerate() {
            *place = Self::coefficient(a, b, k);
        }
    }

    /// The product of two lists of any lengths, the constants first: as many coefficients as `out` has.
    /// All heavy work goes through this call, so an implementation may bring a faster body.
    fn product(a: &[u16], b: &[u16], out: &mut [u16])
        ensures { out.new ≡ convolution (coded arithmetic) (length out.old) a.now b.now }
    {
        Self::product_by_terms(a, b, out);
    }

    /// c·a − d·b in the place of `a`, coefficient by coefficient: the row operation of a division step.
    fn mix(c: u16, a: &mut [u16], d: u16, b: &[u16])
        ensures { a.new ≡ mixed (coded arithmetic) c a.old d b.now }
    {
        for (k, x) in a.iter_mut().enumerate() {
            *x = Self::sub(Self::mul(c, *x), Self::mul(d, at(b, k)));
        }
    }

    ghost lawful: { ArithmeticLaws arithmetic };

    ghost inverts: { ReciprocalLaws arithmetic recip };
}

/// How many terms coefficient k of a product has, where the first list has `len` coefficients.
fn terms(len: usize, k: usize) -> usize
    ensures within { result ≤ len }
    ensures reached { result ≤ k + 1 }
    ensures whole { result < k + 1 → result ≡ len }
{
    len.min(k.saturating_add(1))
}

/// Coefficient k of a list, which past the end is 0.
pub fn at(a: &[u16], k: usize) -> u16
    ensures { result ≡ slice_index a.now k }
{
    a.get(k).copied().unwrap_or(0)
}

/// Whether a number is a code.
pub fn is_code<F: Field>(a: u16) -> bool
    ensures { result ≡ nat_lt a F.Field.arithmetic.size }
{
    a < F::size()
}

/// Whether each number of a list is a code. Every number is looked at, whatever was found before. (No `fold`: of the
/// loop a planted bug is refused in this function, and of a `fold` only in its proof.)
pub fn all_codes<F: Field>(a: &[u16]) -> bool
    ensures { result ≡ all_codes F.Field.arithmetic.size a.now }
{
    let mut all = true;
    for x in a {
        all = all & is_code::<F>(*x);
    }
    all
}
