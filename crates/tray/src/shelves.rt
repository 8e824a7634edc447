//! The shelves of a sheet: reading one, putting a polynomial on one, and filling an entry's shelves.

ghost use Rattle.std.specs.Prelude.{◌≡◌, ◌+◌, ◌*◌, ◌<◌, ◌≤◌, length, replicate};
ghost use Rattle.std.specs.Result.{result_err};
ghost use Rattle.field.specs.Meaning.{all_codes};
ghost use Rattle.traylaw.specs.Sheets.{most_entries, room, shelf, shelved, put_sheet, zeroed};
ghost use Rattle.traylaw.specs.Effects.{sheet_asked};
ghost use Rattle.tray.specs.Shelf.{number_of};

use crate::trays::Tray;
use field::{Field, all_codes};
use refusal::Refusal;

/// One of the three shelves of entry i + 1.
#[derive(Clone, Copy)]
pub(crate) enum Shelf {
    Numerator(usize),
    Denominator(usize),
    Product(usize),
}

impl Shelf {
    /// The number of the shelf on its sheet, counted from 0.
    fn number(self) -> usize
        requires { number_of self < 3 * most_entries }
        ensures { result ≡ number_of self }
    {
        match self {
            Shelf::Numerator(i) => 3 * i,
            Shelf::Denominator(i) => 3 * i + 1,
            Shelf::Product(i) => 3 * i + 2,
        }
    }
}

/// A sheet that a tray is lent, cut into shelves of p numbers: three for each entry that the tray can hold.
/// That an entry or a shelf is one of these, and holds codes, is asked by each method: a number alone can't say so.
#[derive(Drop)]
pub(crate) struct Shelves<'a> {
    sheet: &'a mut [u16],
    pub(crate) p: usize,
    capacity: usize,
    ghost degree_least: { 2 ≤ p },
    ghost degree_most: { p ≤ 1277 },
    ghost capacity_most: { capacity ≤ most_entries },
    ghost long: { room p capacity ≤ length sheet.now },
}

/// Asks whether a sheet is long enough for the shelves of a tray.
pub(crate) fn ask_sheet(p: usize, capacity: usize, sheet: &[u16]) -> Result<(), Refusal>
    requires degree { p ≤ 1277 }
    requires few { capacity ≤ most_entries }
    ensures { result_err result ≡ sheet_asked p capacity sheet.now }
{
    if sheet.len() < 3 * p * capacity {
        return Err(Refusal::Sheet);
    }
    Ok(())
}

impl<S> Tray<S> {
    /// The shelves of a sheet that is long enough for the tray.
    pub(crate) fn shelves<'a>(&self, sheet: &'a mut [u16]) -> Shelves<'a>
        requires { room self.now.p self.now.capacity ≤ length sheet.old }
        ensures same_reference { result.sheet.ghost_name ≡ sheet.entry.ghost_name }
        ensures as_lent { result.sheet.now ≡ sheet.old }
        ensures degree { result.p ≡ self.now.p }
        ensures capacity { result.capacity ≡ self.now.capacity }
    {
        Shelves {
            sheet,
            p: self.p,
            capacity: self.capacity,
        }
    }
}

impl Shelves<'_> {
    ghost use Rattle.tray.specs.Shelves.{KeepsCut};

    /// Where a shelf begins on the sheet.
    #[tactic(auto, using(crate::proofs::Places::shelf_within))]
    fn start_of(&self, which: Shelf) -> usize
        requires { number_of which < 3 * self.now.capacity }
        ensures start { result ≡ number_of which * self.now.p }
        ensures within { result + self.now.p ≤ length self.now.sheet.now }
    {
        which.number() * self.p
    }

    /// What is on a shelf.
    #[tactic(auto, unfolding(traylaw::specs::Sheets::shelf))]
    pub(crate) fn shelf(&self, which: Shelf) -> &[u16]
        requires { number_of which < 3 * self.now.capacity }
        ensures on_shelf { result.now ≡ shelf self.now.p (number_of which) self.now.sheet.now }
        ensures len { length result.now ≡ self.now.p }
    {
        let at = self.start_of(which);
        &self.sheet[at..at + self.p]
    }

    /// Whether a shelf holds codes.
    pub(crate) fn coded<F: Field>(&self, which: Shelf) -> bool
        requires { number_of which < 3 * self.now.capacity }
        ensures { result ≡ all_codes F.Field.arithmetic.size (shelf self.now.p (number_of which) self.now.sheet.now) }
    {
        all_codes::<F>(self.shelf(which))
    }

    /// Puts a polynomial on a shelf.
    #[tactic(auto, using(std::proofs::lemmas::Slice::overwrites), unfolding(traylaw::specs::Sheets::shelved))]
    pub(crate) fn put_on(&mut self, which: Shelf, poly: &[u16])
        requires within { number_of which < 3 * self.old.capacity }
        requires fits { length poly.now ≡ self.old.p }
        ensures cut { KeepsCut self.old self.new }
        ensures put { self.new.sheet.now ≡ shelved self.old.p (number_of which) poly.now self.old.sheet.now }
    {
        let at = self.start_of(which);
        self.sheet[at..at + self.p].copy_from_slice(poly);
    }

    /// Fills a shelf with zeros. (As `put_on`, but with no list to copy.)
    #[tactic(auto, using(std::proofs::lemmas::Slice::overwrites), unfolding(traylaw::specs::Sheets::shelved))]
    pub(crate) fn zero_shelf(&mut self, which: Shelf)
        requires { number_of which < 3 * self.old.capacity }
        ensures cut { KeepsCut self.old self.new }
        ensures zeroed { self.new.sheet.now ≡ shelved self.old.p (number_of which) (replicate self.old.p 0) self.old.sheet.now }
    {
        let at = self.start_of(which);
        self.sheet[at..at + self.p].fill(0);
    }

    /// Puts entry i + 1 on its shelves, with a product shelf of zeros.
    #[tactic(auto, using(crate::proofs::Places::entry_within, crate::proofs::Places::entry_put))]
    pub(crate) fn put_entry(&mut self, i: usize, numerator: &[u16], denominator: &[u16])
        requires within { i < self.old.capacity }
        requires fits_numerator { length numerator.now ≡ self.old.p }
        requires fits_denominator { length denominator.now ≡ self.old.p }
        ensures cut { KeepsCut self.old self.new }
        ensures put { self.new.sheet.now ≡ put_sheet self.old.p i self.old.sheet.now numerator.now denominator.now }
    {
        self.put_on(Shelf::Numerator(i), numerator);
        self.put_on(Shelf::Denominator(i), denominator);
        self.zero_shelf(Shelf::Product(i));
    }

    /// Fills the three shelves of entry i + 1 with zeros.
    pub(crate) fn zero_entry(&mut self, i: usize)
        requires { i < self.old.capacity }
        ensures cut { KeepsCut self.old self.new }
        ensures zeroed { self.new.sheet.now ≡ zeroed self.old.p i self.old.sheet.now }
    {
        let at = self.start_of(Shelf::Numerator(i));
        self.sheet[at..at + 3 * self.p].fill(0);
    }
}
