//! The inverse of a polynomial, read off 2p − 1 division steps.
//!
//! The steps begin with δ = 1, f = 1 − x^(p−1) − x^p, which is x^p − x − 1 read backwards, and g, the
//! polynomial a read backwards. At 1/x, f is x^p − x − 1 over x^p, which is 0, and g is a over x^(p−1). Each step keeps
//! that x^n·f is v·a up to that factor, read at 1/x, and the degrees of f and g together fall by one. After
//! 2p − 1 steps either δ = 0 and f is a constant c that is not zero: then v, read backwards and divided by c, times a is 1;
//! or g has become 0 and r, read backwards, times a is 0 with r not 0: then a has no inverse. Nothing rests on
//! x^p − x − 1 being irreducible. Only the half (v, r) of the matrix is worked out: u and q are passed empty.

ghost use Rattle.std.specs.Prelude.{◌≡◌, ◌+◌, ◌-◌, ◌*◌, ◌<◌, ◌≤◌, true, length, is_some, MatchOption, slice_index};
ghost use Rattle.std.specs.Option.{unwrap_or};
ghost use Rattle.field.specs.Convolution.{tabulate};
ghost use Rattle.field.specs.Meaning.{coded, all_codes};
ghost use Rattle.divstep.specs.ReadOff.{is_zero, inverse_of, IsInverse, NoInverseOf};

use crate::run::Lists;
use crate::starts::{set_one, set_reversed, set_reversed_modulus};
use field::Field;
use ring::Degree;

/// Writes the inverse of a to `out`, if there is one.
pub(crate) fn invert<F: Field>(
    degree: Degree,
    a: &[u16],
    out: &mut [u16],
    scratch: &mut [u16],
) -> Option<()>
    requires long_a { length a.now ≡ degree }
    requires long_out { length out.old ≡ degree }
    requires room { 32 * degree + 256 ≤ length scratch.old }
    requires codes { all_codes F.Field.arithmetic.size a.now ≡ true }
    ensures found { is_some result ≡ is_some (inverse_of F.Field.arithmetic degree F.Field.recip a.now) }
    ensures out_as_read_off { out.new ≡ unwrap_or (inverse_of F.Field.arithmetic degree F.Field.recip a.now) out.old }
    ensures exactly { MatchOption result (NoInverseOf F.Field.arithmetic degree a.now) (λ _. IsInverse F.Field.arithmetic degree a.now out.new) }
{
    let p = degree.get();
    let (f, rest) = scratch.split_at_mut(p + 1);
    let (g, rest) = rest.split_at_mut(p + 1);
    let (v, rest) = rest.split_at_mut(2 * p);
    let (r, scratch) = rest.split_at_mut(2 * p);
    set_reversed_modulus::<F>(f);
    set_reversed(a, g);
    v.fill(0);
    set_one(r);
    let mut lists = Lists {
        delta: 1,
        f,
        g,
        u: &mut [],
        v,
        q: &mut [],
        r,
        scratch,
    };
    lists.run::<F>(2 * p - 1);
    if !ended(lists.delta) {
        return None;
    }
    let c = F::reciprocal(f[0])?;
    read_off::<F>(v, c, out);
    Some(())
}

/// Whether the steps end with an inverse to read off.
fn ended(delta: i32) -> bool
    ensures { result ≡ is_zero delta }
{
    delta == 0
}

/// Writes coefficient p − k of v, times c, to each place k of the p places.
fn read_off<F: Field>(v: &[u16], c: u16, out: &mut [u16])
    requires { length out.old < length v.now }
    ensures { out.new ≡ tabulate (length out.old) (λ k. (coded F.Field.arithmetic).times (slice_index v.now (length out.old - k)) c) }
{
    let p = out.len();
    for (k, x) in out.iter_mut().enumerate() {
        *x = F::mul(v[p - k], c);
    }
}
