//! Codes that look random, for programs that measure.

#![tactic(auto)]

ghost use Rattle.std.specs.Prelude.{◌≡◌, ℕ, ◌<◌, All};

use field::Field;
use std::marker::Model;

/// A linear congruential generator of numbers of 32 bits. A contract sees it as its last number.
#[derive(Drop)]
pub struct Generator(u32);

impl Model for Generator {
    ghost Value = { ℕ };

    ghost view = { λ g. g.0 };
}

impl Generator {
    /// A generator that begins at a seed.
    pub fn new(seed: u32) -> Generator
        ensures { result ≡ seed }
    {
        Generator(seed)
    }

    /// Fills a list with codes that look random. Which codes they are, and how the generator goes on, is not promised.
    pub fn fill<F: Field>(&mut self, list: &mut [u16])
        ensures { All (λ x. x < F.Field.arithmetic.size) list.new }
    {
        list.fill_with(|| self.code::<F>());
    }

    /// A code: the next number without its last eight bits, reduced to the field.
    fn code<F: Field>(&mut self) -> u16
        ensures { result < F.Field.arithmetic.size }
    {
        self.0 = self.0.wrapping_mul(1_664_525).wrapping_add(1_013_904_223);
        ((self.0 >> 8) % u32::from(F::size())) as u16
    }
}
