//! What division steps begin with.

ghost use Rattle.std.specs.Prelude.{◌≡◌, ◌+◌, ◌-◌, ◌<◌, ◌≤◌, [], ◌∷◌, ◌++◌, reverse, length, replicate};
ghost use Rattle.divstep.specs.ReadOff.{reversed_modulus};

use field::Field;

/// Writes the polynomial 1.
pub(crate) fn set_one(a: &mut [u16])
    requires { 0 < length a.old }
    ensures { a.new ≡ 1 ∷ replicate (length a.old - 1) 0 }
{
    a.fill(0);
    a[0] = 1;
}

/// Writes 1 − x^(p−1) − x^p, the reverse of x^p − x − 1, to p + 1 places.
pub(crate) fn set_reversed_modulus<F: Field>(f: &mut [u16])
    requires { 3 ≤ length f.old }
    ensures { f.new ≡ reversed_modulus F.Field.arithmetic (length f.old - 1) }
{
    let p = f.len() - 1;
    f.fill(0);
    f[0] = 1;
    f[p - 1..].fill(F::sub(0, 1));
}

/// Writes the coefficients of a in reverse, and a zero after them.
pub(crate) fn set_reversed(a: &[u16], g: &mut [u16])
    requires { length g.old ≡ length a.now + 1 }
    ensures { g.new ≡ reverse a.now ++ 0 ∷ [] }
{
    let p = a.len();
    g[..p].copy_from_slice(a);
    g[..p].reverse();
    g[p] = 0;
}
