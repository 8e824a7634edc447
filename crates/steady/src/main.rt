//! Inverts one polynomial of degree below 761 over Z_4591, made from a seed of four digits on standard
//! input. Everything but the inversion does the same work for every seed, so that counting the
//! instructions of this program for many seeds shows whether an inversion does.

#![tactic(auto)]

use residues::Z4591;
use samples::Generator;
use std::io::Read;
use steps::inverse;

/// How many coefficients the polynomial has.
const P: usize = 761;

/// What an inversion asks for as scratch.
const SCRATCH: usize = 32 * P + 256;

/// The number that four digits are. By hand, since `parse` does one instruction more for some digits than for others.
fn number(digits: &[u8]) -> u32 {
    digits.iter().fold(0u32, |n, d| {
        n.wrapping_mul(10).wrapping_add(u32::from(*d & 15))
    })
}

fn main(rt: HostRuntime) -> anyhow::Result<()> {
    let mut digits = [0u8; 4];
    rt.stdin().read_exact(&mut digits)?;
    let mut a = [0u16; P];
    let mut out = [0u16; P];
    let mut scratch = vec![in rt.alloc(); 0u16; SCRATCH]?;
    Generator::new(number(&digits)).fill::<Z4591>(&mut a);
    match inverse::<Z4591>(P, &a, &mut out, &mut scratch) {
        Ok(steps) => println!(rt; "an inverse was found by {steps} steps")?,
        Err(_) => println!(rt; "no inverse")?,
    }
    Ok(())
}
