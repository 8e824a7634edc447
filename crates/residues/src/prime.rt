//! The primes whose residues are fields of this crate.

ghost use Rattle.std.specs.Prelude.{◌≤◌};
ghost use Rattle.std.proofs.Common.{lit≤};
ghost use Rattle.field.specs.Meaning.{ReciprocalLaws};
ghost use Rattle.residues.specs.Residues.{residues, reciprocal_mod, ReciprocalTable};
ghost use Rattle.residues.specs.Reciprocals.{inverts_3, inverts_5, inverts_4591};

use crate::residue::Residues;
use crate::table::{RECIPROCALS_3, RECIPROCALS_5, RECIPROCALS_4591};

/// What the residues modulo Q need to be a field. A further prime brings an implementation for `Residues<Q>`: the
/// table of its reciprocals, each entry of which the prover tests, that Q lies within the bounds, and that each residue
/// but 0 has a reciprocal, which `powers_invert` (specs/Reciprocals.antt) tests by the binary digits of Q − 2.
pub trait Prime<const Q: u16> {
    /// The reciprocal of each residue but 0 at the place of the residue, and 0 at place 0.
    fn reciprocals() -> &'static [u16]
        ensures { ReciprocalTable Q result.now };

    ghost least: { 2 ≤ Q };

    // No sum of the wide kernel leaves 32 bits for a Q within this bound.
    ghost most: { Q ≤ 4591 };

    ghost inverts: { ReciprocalLaws (residues Q) (reciprocal_mod Q) };
}

impl Prime<3> for Residues<3> {
    fn reciprocals() -> &'static [u16] {
        &RECIPROCALS_3
    }

    ghost least = { lit≤ tt };

    ghost most = { lit≤ tt };

    ghost inverts = { inverts_3 };
}

impl Prime<5> for Residues<5> {
    fn reciprocals() -> &'static [u16] {
        &RECIPROCALS_5
    }

    ghost least = { lit≤ tt };

    ghost most = { lit≤ tt };

    ghost inverts = { inverts_5 };
}

impl Prime<4591> for Residues<4591> {
    fn reciprocals() -> &'static [u16] {
        &RECIPROCALS_4591
    }

    ghost least = { lit≤ tt };

    ghost most = { lit≤ tt };

    ghost inverts = { inverts_4591 };
}
