//! Arithmetic modulo a constant. The modulus is a const parameter, so that no division by a variable
//! remains and every operation takes the same time for all numbers.

ghost use Rattle.std.specs.Prelude.{◌≡◌, slice_index};
ghost use Rattle.std.proofs.Common.{rules};
ghost use Rattle.field.specs.Meaning.{code};
ghost use Rattle.residues.specs.Residues.{residues, reciprocal_mod};
ghost use Rattle.residues.specs.ResiduesLemmas.{residues_lawful};

use crate::prime::Prime;
use crate::wide;
use field::Field;

/// The integers modulo Q, a prime.
pub struct Residues<const Q: u16>;

#[tactic(auto, unfolding(field::specs::Meaning::coded))]
impl<const Q: u16> Field for Residues<Q>
where
    Residues<Q>: Prime<Q>,
{
    ghost arithmetic = { residues Q };

    ghost recip = { reciprocal_mod Q };

    ghost lawful = { residues_lawful Q (Prim.search rules) (Prim.search rules) };

    ghost inverts = { Prim.search rules };

    fn size() -> u16 {
        Q
    }

    fn add(a: u16, b: u16) -> u16 {
        (read::<Q>(a) + read::<Q>(b)) % Q
    }

    fn sub(a: u16, b: u16) -> u16 {
        (read::<Q>(a) + (Q - read::<Q>(b))) % Q
    }

    fn mul(a: u16, b: u16) -> u16 {
        let product = read::<Q>(a) as u32 * read::<Q>(b) as u32;
        (product % Q as u32) as u16
    }

    // The table is read whole, so that no address depends on the number.
    fn reciprocal(a: u16) -> Option<u16> {
        let place = read::<Q>(a);
        (place != 0).then_some(scan(Self::reciprocals(), place))
    }

    fn product(a: &[u16], b: &[u16], out: &mut [u16]) {
        if wide::fits(a, b, out) && !wide::is_short(a, out) {
            wide::product::<Q>(a, b, out);
        } else {
            Self::product_by_terms(a, b, out);
        }
    }
}

/// The number as a code: itself below Q, else 0.
pub(crate) fn read<const Q: u16>(a: u16) -> u16
    ensures { result ≡ code Q a }
{
    if a < Q { a } else { 0 }
}

/// The entry at a place, found by looking at every entry.
fn scan(table: &[u16], place: u16) -> u16
    ensures { result ≡ slice_index table.now place }
{
    let mut found = 0;
    for (k, x) in table.iter().enumerate() {
        found = if k == place as usize { *x } else { found };
    }
    found
}
