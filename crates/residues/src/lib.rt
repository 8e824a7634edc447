//! The fields of residues modulo 3, 5 and 4591.

#![tactic(auto)]

mod prime;
mod residue;
mod table;
mod wide;

pub use prime::Prime;
pub use residue::Residues;

/// The integers modulo 3. Its codes 0, 1, 2 stand for 0, 1, −1 and are called trits.
pub type Z3 = Residues<3>;

/// The integers modulo 5.
pub type Z5 = Residues<5>;

/// The integers modulo 4591.
pub type Z4591 = Residues<4591>;
