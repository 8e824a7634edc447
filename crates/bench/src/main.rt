//! How long products, inverses and the quotients of a tray take: times on standard error, one fixed line on standard
//! output.

#![tactic(auto)]

ghost use Rattle.std.specs.Prelude.{◌<◌};

mod trays;

use crate::trays::time_trays;
use anyhow::bail;
use field::Field;
use refusal::Refusal;
use residues::{Z3, Z4591};
use ring::{GREATEST_DEGREE, product};
use samples::Generator;
use std::mem;
use std::rt::Clock;
use std::time::Instant;
use steps::inverse;

/// How often each product is made.
const PRODUCTS: u32 = 400;

/// How many inversions are made.
const INVERSIONS: u32 = 40;

/// What a call on polynomials of degree p asks for as scratch, 32·p + 256.
pub(crate) fn scratch_for(p: usize) -> usize {
    p.saturating_mul(32).saturating_add(256)
}

/// The nanoseconds that a call takes, on average over `runs` calls.
pub(crate) fn time_call<C: FnMut() -> Result<(), Refusal>>(
    rt: &impl Clock,
    what: &str,
    runs: u32,
    mut call: C,
) -> anyhow::Result<u128>
    requires callable { C.IsAlwaysCallable call }
    requires some { 0 < runs }
{
    let start = Instant::now(rt)?;
    for _ in 0..runs {
        if call().is_err() {
            bail!("{what} was refused");
        }
    }
    Ok(start.elapsed(rt)?.as_nanos() / u128::from(runs))
}

/// Times the product of degree p: each time the product before is multiplied by b.
fn time_product<F: Field>(
    rt: &(impl Clock + Eprint + AllocGlobal),
    name: &str,
    p: usize,
) -> anyhow::Result<()> {
    let mut a = vec![in rt.alloc(); 0u16; p]?;
    let mut b = vec![in rt.alloc(); 0u16; p]?;
    let mut out = vec![in rt.alloc(); 0u16; p]?;
    Generator::new(1).fill::<F>(&mut a);
    Generator::new(2).fill::<F>(&mut b);
    let nanos = time_call(rt, "a product", PRODUCTS, || {
        product::<F>(p, &a, &b, &mut out)?;
        mem::swap(&mut a, &mut out);
        Ok(())
    })?;
    eprintln!(rt; "product over {name}, p = {p}: {nanos} ns")?;
    Ok(())
}

/// Times the inverse of degree p: each time the inverse before is inverted, with one added to its constant.
fn time_inverse<F: Field>(
    rt: &(impl Clock + Eprint + AllocGlobal),
    name: &str,
    p: usize,
) -> anyhow::Result<()> {
    let mut a = vec![in rt.alloc(); 0u16; p]?;
    let mut out = vec![in rt.alloc(); 0u16; p]?;
    let mut scratch = vec![in rt.alloc(); 0u16; scratch_for(GREATEST_DEGREE)]?;
    let mut found = 0u32;
    Generator::new(3).fill::<F>(&mut a);
    let nanos = time_call(rt, "an inversion", INVERSIONS, || {
        // No `?`: one of the refusals is a result here.
        match inverse::<F>(p, &a, &mut out, &mut scratch) {
            Ok(_) => {
                found = found.saturating_add(1);
                mem::swap(&mut a, &mut out);
            }
            Err(Refusal::NoInverse { .. }) => {}
            Err(refusal) => return Err(refusal),
        }
        if let Some(x) = a.first_mut() {
            *x = F::add(*x, 1);
        }
        Ok(())
    })?;
    eprintln!(rt; "inverse over {name}, p = {p}: {nanos} ns, {found} of {INVERSIONS} found")?;
    Ok(())
}

fn main(rt: HostRuntime) -> anyhow::Result<()> {
    for p in [191, 383, 761, 1277] {
        time_product::<Z4591>(&rt, "Z_4591", p)?;
        time_product::<Z3>(&rt, "Z_3", p)?;
    }
    for p in [191, 383, 761, 1277] {
        time_inverse::<Z4591>(&rt, "Z_4591", p)?;
        time_inverse::<Z3>(&rt, "Z_3", p)?;
    }
    println!(rt; "timed products and inverses over 2 fields at 4 degrees")?;
    time_trays::<Z4591>(&rt, "Z_4591")?;
    time_trays::<Z3>(&rt, "Z_3")?;
    Ok(())
}
