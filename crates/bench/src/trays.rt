//! How long the quotients of a tray take, beside as many inversions and products without one.

use crate::{scratch_for, time_call};
use anyhow::bail;
use field::Field;
use refusal::Refusal;
use ring::product;
use samples::Generator;
use std::alloc::{AllocError, Global};
use std::rt::Clock;
use steps::inverse;
use tray::{ClosedTray, OpenTray, open};

/// The degree p of the fractions.
const DEGREE: usize = 761;

/// The most fractions that are divided together.
const MOST: usize = 64;

/// How often each run is made.
const RUNS: u32 = 4;

/// A fraction of two polynomials.
#[derive(Clone, Copy)]
struct Fraction {
    numerator: [u16; DEGREE],
    denominator: [u16; DEGREE],
}

/// Fractions, and the memory that their quotients are made in.
#[derive(Drop)]
struct Desk {
    fractions: Vec<Fraction>,
    sheet: Vec<u16>,
    scratch: Vec<u16>,
    inverse: Vec<u16>,
    quotient: Vec<u16>,
}

impl Desk {
    /// A desk with room for the most fractions.
    fn new(heap: Global) -> Result<Desk, AllocError> {
        let zero = Fraction {
            numerator: [0; DEGREE],
            denominator: [0; DEGREE],
        };
        Ok(Desk {
            fractions: vec![in heap; zero; MOST]?,
            sheet: vec![in heap; 0u16; 3 * MOST * DEGREE]?,
            scratch: vec![in heap; 0u16; scratch_for(DEGREE)]?,
            inverse: vec![in heap; 0u16; DEGREE]?,
            quotient: vec![in heap; 0u16; DEGREE]?,
        })
    }

    /// Makes fractions whose denominators all have inverses.
    fn fill<F: Field>(&mut self) -> anyhow::Result<()> {
        let mut numerators = Generator::new(4);
        for fraction in &mut self.fractions {
            numerators.fill::<F>(&mut fraction.numerator);
        }
        for seed in 5..25 {
            let mut denominators = Generator::new(seed);
            for fraction in &mut self.fractions {
                denominators.fill::<F>(&mut fraction.denominator);
            }
            if self.divide_together::<F>(MOST).is_ok() {
                return Ok(());
            }
        }
        bail!("no denominators with inverses were found")
    }

    /// Puts the first n fractions.
    fn put_all<F: Field>(&mut self, tray: &mut OpenTray, n: usize) -> Result<(), Refusal> {
        for fraction in self.fractions.iter().take(n) {
            tray.put::<F>(&mut self.sheet, &fraction.numerator, &fraction.denominator)?;
        }
        Ok(())
    }

    /// Draws n quotients.
    fn draw_all<F: Field>(&mut self, tray: &mut ClosedTray, n: usize) -> Result<(), Refusal> {
        for _ in 0..n {
            tray.draw::<F>(&mut self.sheet, &mut self.quotient, &mut self.scratch)?;
        }
        Ok(())
    }

    /// Divides the first n fractions on one tray: n puts, a close, n draws and the burn.
    fn divide_together<F: Field>(&mut self, n: usize) -> Result<(), Refusal> {
        let (mut tray, owed) = open(DEGREE, n, &mut self.sheet)?;
        let put = self.put_all::<F>(&mut tray, n);
        match tray.close::<F>(&mut self.sheet, &mut self.scratch) {
            Ok((mut closed, _)) => {
                let drawn = self.draw_all::<F>(&mut closed, n);
                closed.burn(owed, &mut self.sheet);
                put.and(drawn)
            }
            Err((again, refusal)) => {
                again.burn(owed, &mut self.sheet);
                Err(refusal)
            }
        }
    }

    /// Divides the first n fractions without a tray: an inversion and a product for each.
    fn divide_singly<F: Field>(&mut self, n: usize) -> Result<(), Refusal> {
        for fraction in self.fractions.iter().take(n) {
            inverse::<F>(
                DEGREE,
                &fraction.denominator,
                &mut self.inverse,
                &mut self.scratch,
            )?;
            product::<F>(
                DEGREE,
                &fraction.numerator,
                &self.inverse,
                &mut self.quotient,
            )?;
        }
        Ok(())
    }
}

/// Times the quotients of 1, 8 and 64 fractions on one tray, and without one.
pub(crate) fn time_trays<F: Field>(
    rt: &(impl Clock + Eprint + AllocGlobal),
    name: &str,
) -> anyhow::Result<()> {
    let mut desk = Desk::new(rt.alloc())?;
    desk.fill::<F>()?;
    for n in [1u32, 8, 64] {
        let entries = usize::try_from(n)?;
        let on_tray = || desk.divide_together::<F>(entries);
        let together = time_call(rt, "a division", RUNS, on_tray)? / 1000;
        let without = || desk.divide_singly::<F>(entries);
        let singly = time_call(rt, "a division", RUNS, without)? / 1000;
        let each = together.checked_div(u128::from(n)).unwrap_or(0);
        let each_singly = singly.checked_div(u128::from(n)).unwrap_or(0);
        eprintln!(rt;
            "tray over {name}, p = {DEGREE}, {n} entries: {together} us, {each} us for one; \
             without a tray {singly} us, {each_singly} us for one"
        )?;
    }
    Ok(())
}
