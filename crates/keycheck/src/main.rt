//! Reads the text of a key from the standard input and says at how many places its lists agree.

#![tactic(auto)]

use keytext::confirm::{confirm_h, confirm_v};
use keytext::key::read_key;
use refusal::Refusal;
use std::io;
use std::io::Read;

/// How many coefficients a polynomial of the key has.
const P: usize = 761;

fn main(rt: HostRuntime) -> io::Result<()> {
    let mut text = Vec::new(rt.alloc());
    rt.stdin().read_to_end(&mut text)?;
    // Four lists, which `read_key` and the two checks borrow in turn.
    let mut g = [0u16; P];
    let mut f = [0u16; P];
    let mut v = [0u16; P];
    let mut h = [0u16; P];
    if let Err(why) = read_key(&text, &mut g, &mut f, &mut v, &mut h) {
        return println!(rt; "malformed: {why}");
    }
    tell(&rt, "h * 3f = g over Z_4591", confirm_h(P, &g, &f, &h))?;
    tell(&rt, "v * g = 1 over Z_3", confirm_v(P, &g, &v))
}

/// Prints at how many places an equation holds.
fn tell(rt: &impl Print, equation: &str, agreeing: Result<usize, Refusal>) -> io::Result<()> {
    match agreeing {
        Ok(count) => println!(rt; "{equation}: {count} of {P} coefficients agree"),
        Err(why) => println!(rt; "{equation}: refused: {why:?}"),
    }
}
