//! The check of a key: h times 3f is g over Z_4591, and v times g is 1 over Z_3.

ghost use Rattle.std.specs.Prelude.{◌≡◌, ◌≤◌, length, IfOk};
ghost use Rattle.std.specs.List.{AllZip};
ghost use Rattle.std.specs.Result.{result_err};
ghost use Rattle.refusal.specs.Questions.{first_no};
ghost use Rattle.field.specs.Meaning.{coded};
ghost use Rattle.residues.specs.Residues.{residues};
ghost use Rattle.ring.specs.Asked.{operands_asked};
ghost use Rattle.ring.specs.Polynomials.{product as product_of, unit};
ghost use Rattle.keytext.specs.Agreement.{lift as lift_of, lifted, triple as triple_of, tripled as tripled_of, agreeing as agreeing_of, EqualAtAll, lists_asked};

use field::{Field, all_codes};
use refusal::Refusal;
use residues::{Z3, Z4591};
use ring::{Degree, GREATEST_DEGREE, product};

/// At how many of p places h times 3f agrees with g over Z_4591.
pub fn confirm_h(p: usize, g: &[u16], f: &[u16], h: &[u16]) -> Result<usize, Refusal>
    ensures refused_as_asked { result_err result ≡ first_no (lists_asked p g.now f.now h.now) }
    ensures counts { IfOk result (λ n. n ≡ agreeing_of (product_of (coded (residues 4591)) p h.now (tripled_of f.now)) (lifted g.now)) }
    ensures all_is_equal { IfOk result (EqualAtAll p (product_of (coded (residues 4591)) p h.now (tripled_of f.now)) (lifted g.now)) }
{
    let degree = ask_lists(p, g, f, h)?;
    let mut triples = [0u16; GREATEST_DEGREE];
    let mut lifts = [0u16; GREATEST_DEGREE];
    let triples = &mut triples[0..p];
    let lifts = &mut lifts[0..p];
    map_to(f, triple, triples);
    map_to(g, lift, lifts);
    compare::<Z4591>(degree, h, triples, lifts)
}

/// At how many of p places v times g agrees with 1 over Z_3.
pub fn confirm_v(p: usize, g: &[u16], v: &[u16]) -> Result<usize, Refusal>
    ensures refused_as_asked { result_err result ≡ first_no (operands_asked 3 p v.now g.now p) }
    ensures counts { IfOk result (λ n. n ≡ agreeing_of (product_of (coded (residues 3)) p v.now g.now) (unit (coded (residues 3)) p)) }
    ensures all_is_equal { IfOk result (EqualAtAll p (product_of (coded (residues 3)) p v.now g.now) (unit (coded (residues 3)) p)) }
{
    let degree = Degree::try_from(p)?;
    let mut one = [0u16; GREATEST_DEGREE];
    let one = &mut one[0..p];
    write_one(one);
    compare::<Z3>(degree, v, g, one)
}

/// At how many places the product of a and b agrees with what is expected.
fn compare<F: Field>(p: Degree, a: &[u16], b: &[u16], expected: &[u16]) -> Result<usize, Refusal>
    requires { length expected.now ≡ p }
    ensures refused_as_asked { result_err result ≡ first_no (operands_asked F.Field.arithmetic.size p a.now b.now p) }
    ensures counts { IfOk result (λ n. n ≡ agreeing_of (product_of (coded F.Field.arithmetic) p a.now b.now) expected.now) }
    ensures all_is_equal { IfOk result (EqualAtAll p (product_of (coded F.Field.arithmetic) p a.now b.now) expected.now) }
{
    let p = p.get();
    // There is no heap here: an array has room for the greatest degree, and the first p places are used.
    let mut found = [0u16; GREATEST_DEGREE];
    let found = &mut found[0..p];
    product::<F>(p, a, b, found)?;
    Ok(agreeing(found, expected))
}

/// Asks whether p is a degree, the lists have p numbers, g and f hold trits and h holds codes of Z_4591.
fn ask_lists(p: usize, g: &[u16], f: &[u16], h: &[u16]) -> Result<Degree, Refusal>
    ensures refused_as_asked { result_err result ≡ first_no (lists_asked p g.now f.now h.now) }
    ensures degree { IfOk result (λ d. d ≡ p) }
{
    let degree = Degree::try_from(p)?;
    if g.len() != p || f.len() != p || h.len() != p {
        return Err(Refusal::Length);
    }
    if !(all_codes::<Z3>(g) & all_codes::<Z3>(f) & all_codes::<Z4591>(h)) {
        return Err(Refusal::NotACode { entry: 0 });
    }
    Ok(degree)
}

/// A trit as a code of Z_4591: 2 stands for −1.
fn lift(t: u16) -> u16
    ensures { result ≡ lift_of t }
{
    if t == 2 { 4590 } else { t }
}

/// Three times a trit, as a code of Z_4591. (`lift` and this one say a definition each.)
fn triple(t: u16) -> u16
    ensures { result ≡ triple_of t }
{
    (3 * lift(t) as u32 % 4591) as u16
}

/// Writes what `change` makes of each number.
fn map_to<F: Fn(u16) -> u16>(a: &[u16], change: F, out: &mut [u16])
    requires callable { F.IsAlwaysCallable change }
    requires long { length a.now ≡ length out.old }
    ensures { AllZip (F.post change) a.now out.new }
{
    // By index: of a `zip` of `out` a contract would not know what was written.
    for (k, x) in out.iter_mut().enumerate() {
        *x = change(a[k]);
    }
}

/// Writes the polynomial 1. (Two lines, as in `steps`: a function for both would be a public one of a lower crate.)
#[tactic(auto, using(crate::proofs::Agreement::one_written))]
fn write_one(out: &mut [u16])
    requires { 2 ≤ length out.old }
    ensures { out.new ≡ unit (coded (residues 3)) (length out.old) }
{
    out.fill(0);
    out[0] = 1;
}

/// At how many places two lists hold the same number.
fn agreeing(a: &[u16], b: &[u16]) -> usize
    ensures { result ≡ agreeing_of a.now b.now }
{
    a.iter().zip(b).filter(|(x, y)| x == y).count()
}
