//! Arrays of coefficients, by value.

ghost use Rattle.std.specs.Prelude.{◌≡◌, ◌-◌, ◌<◌, [], ◌∷◌, ◌++◌, drop, take};
ghost use Rattle.field.specs.Convolution.{mixed as mixed_of};
ghost use Rattle.field.specs.Meaning.{coded};

use field::Field;

/// a / x, with 0 at the last place.
pub(crate) fn down<const N: usize>(mut a: [u16; N]) -> [u16; N]
    requires { 0 < N }
    ensures { result ≡ drop 1 a.entry ++ 0 ∷ [] }
{
    a.rotate_left(1);
    a[N - 1] = 0;
    a
}

/// x·a, without its last coefficient.
pub(crate) fn up<const N: usize>(mut a: [u16; N]) -> [u16; N]
    requires { 0 < N }
    ensures { result ≡ 0 ∷ take (N - 1) a.entry }
{
    a.rotate_right(1);
    a[0] = 0;
    a
}

/// c·a − d·b.
pub(crate) fn mixed<F: Field, const N: usize>(
    c: u16,
    mut a: [u16; N],
    d: u16,
    b: [u16; N],
) -> [u16; N]
    ensures { result ≡ mixed_of (coded F.Field.arithmetic) c a.entry d b.entry }
{
    F::mix(c, &mut a, d, &b);
    a
}
