//! Products of lists of residues, 32 neighbouring coefficients at a time.
//!
//! Coefficient k of a·b is the sum of a_i·b_(k − i). Call a_i row i: it adds a_i·b, moved up by i places.
//! The rows go in two by two, since a processor has an instruction that in each lane multiplies two
//! neighbouring numbers of 16 bits by two others and adds the two products. Rows i and i + 1 give
//! coefficient k the sum a_i·b_(k − i) + a_(i + 1)·b_(k − i − 1), so b is first written out as pairs:
//! pair 190 + j is b_j beside b_(j − 1), after zeros. Then the 32 pairs that two rows meet in a window
//! of 32 neighbouring coefficients lie side by side, and are one read of 64 numbers.
//! The sums of a window stay in registers, row after row, and are reduced modulo q once, at the end.
//! Each product is at most 4590², as q is at most 4591, and 192·4590² = 4045075200 is below 2^32:
//! so the rows go in groups of at most 192, and no sum of a group leaves 32 bits.
//! A window leaves out the pairs of rows that meet nothing but the zeros around b in it, and a group has
//! as many windows as its rows and b reach, so that a short list a is cheap.

ghost use Rattle.std.specs.Prelude.{◌≡◌, ℕ, ◌+◌, ◌*◌, ◌%◌, ◌<◌, ◌≤◌, ◌↔◌, IsTrue, length, slice_index};
ghost use Rattle.field.specs.Meaning.{code, coded};
ghost use Rattle.field.specs.Convolution.{convolution};
ghost use Rattle.residues.specs.Residues.{residues};
ghost use Rattle.residues.specs.declared.wide.TheConstants.{TERMS, NUMBERS};
ghost use Rattle.residues.specs.Sums.{AllZero, AtMost, IsGroup, pair_sum, nat_coef, Spread};

use crate::prime::Prime;
use crate::residue::{Residues, read};
use std::simd::prelude::*;

/// How many rows the kernel takes at most.
const ROWS: usize = 1280;

/// How many coefficients of b it takes at most.
const TERMS: usize = 2560;

/// How many sums there are room for: the windows of the last group end below this.
const SUMS: usize = 3904;

/// How many numbers the pairs are: as far as a window of the greatest lists reads.
const NUMBERS: usize = 5888;

/// How many rows are in each group but the last.
const GROUP: usize = 192;

/// So many products of two coefficients take as long one by one as the arrays that the kernel clears first.
const FEW: usize = 120;

/// Two positions in turn. To interleave two vectors of one number each needs no table, but takes a quarter more
/// instructions for each pair of rows.
const TWOS: [usize; 64] = [
    0, 1, 0, 1, 0, 1, 0, 1, 0, 1, 0, 1, 0, 1, 0, 1, 0, 1, 0, 1, 0, 1, 0, 1, 0, 1, 0, 1, 0, 1, 0, 1,
    0, 1, 0, 1, 0, 1, 0, 1, 0, 1, 0, 1, 0, 1, 0, 1, 0, 1, 0, 1, 0, 1, 0, 1, 0, 1, 0, 1, 0, 1, 0, 1,
];

/// The same numbers, each below 2^15: by way of signed numbers, so that the compiler sees that they are.
/// (Here and below the bound is asked, since the lanes have the processor's own type.)
fn widen(x: u16x64) -> u32x64
    requires { AtMost 32767 x }
    ensures { result ≡ x }
{
    x.cast::<i16>().cast::<i32>().cast::<u32>()
}

/// The products, lane by lane.
fn times(x: u32x64, y: u32x64) -> u32x64
    requires left { AtMost 32767 x }
    requires right { AtMost 32767 y }
    ensures { (k : ℕ) → k < 64 → slice_index result k ≡ slice_index x k * slice_index y k }
{
    x * y
}

/// The sums, lane by lane.
fn plus(x: u32x32, y: u32x32) -> u32x32
    requires { (l : ℕ) → l < 32 → slice_index x l + slice_index y l < 4294967296 }
    ensures { (l : ℕ) → l < 32 → slice_index result l ≡ slice_index x l + slice_index y l }
{
    x + y
}

/// Neighbours added two by two.
fn neighbour_sums(x: u32x64) -> u32x32
    requires { (l : ℕ) → l < 32 → slice_index x (2 * l) + slice_index x (2 * l + 1) < 4294967296 }
    ensures { (l : ℕ) → l < 32 → slice_index result l ≡ slice_index x (2 * l) + slice_index x (2 * l + 1) }
{
    let (evens, odds) = x.extract::<0, 32>().deinterleave(x.extract::<32, 32>());
    evens + odds
}

/// The products of the lanes, neighbours added two by two.
fn pair_products(x: u16x64, y: u16x64) -> u32x32
    requires left { AtMost 32767 x }
    requires right { AtMost 32767 y }
    ensures { (l : ℕ) → l < 32 → slice_index result l ≡ slice_index x (2 * l) * slice_index y (2 * l) + slice_index x (2 * l + 1) * slice_index y (2 * l + 1) }
{
    neighbour_sums(times(widen(x), widen(y)))
}

/// Two numbers in turn.
fn in_turn(first: u16, second: u16) -> u16x64
    ensures even { (l : ℕ) → l < 32 → slice_index result (2 * l) ≡ first }
    ensures odd { (l : ℕ) → l < 32 → slice_index result (2 * l + 1) ≡ second }
{
    u16x2::from_array([first, second]).swizzle(TWOS)
}

/// How many pairs the rows are, without those that begin past window i.
fn end_pair(i: usize, rows: usize) -> usize
    requires { i < 128 }
    ensures most { 2 * result ≤ rows }
    ensures enough { 2 * result + 1 < rows → 32 * i + 32 ≤ 2 * result }
{
    (16 * (i + 1)).min(rows / 2)
}

/// Adds the lanes to the 32 numbers of a window, modulo `Q`.
fn add_window<const Q: u16>(window: &mut [u16], lanes: u32x32)
where
    Residues<Q>: Prime<Q>,
    requires whole { length window.old ≡ 32 }
    requires small { AtMost 4045075200 lanes }
    ensures { (l : ℕ) → l < 32 → slice_index window.new l ≡ (slice_index window.old l + slice_index lanes l) % Q }
{
    let sums = lanes.to_array();
    // By index: of a `zip` of `window` a contract would not know what was written.
    for (l, x) in window.iter_mut().enumerate() {
        *x = ((*x as u32 + sums[l]) % Q as u32) as u16;
    }
}

/// A list b, and b written out as pairs: each code first in the pair 190 on from its place, and second in the
/// pair after that. The numbers are lent, since an array would be copied for each product.
#[derive(Drop)]
struct Pairs<'a, const Q: u16> {
    b: &'a [u16],
    numbers: &'a [u16],
    ghost short: { length b.now ≤ TERMS },
    ghost long: { length numbers.now ≡ NUMBERS },
    ghost small: { AtMost 4590 numbers.now },
    ghost spread: { Spread Q b.now numbers.now },
}

impl<'a, const Q: u16> Pairs<'a, Q>
where
    Residues<Q>: Prime<Q>,
{
    /// Writes b out over zeros.
    fn new(b: &'a [u16], numbers: &'a mut [u16]) -> Self
        requires short { length b.now ≤ TERMS }
        requires room { length numbers.old ≡ NUMBERS }
        requires zeros { AllZero numbers.old }
        ensures { result.b.now ≡ b.now }
    {
        for (t, x) in b.iter().enumerate() {
            let x = read::<Q>(*x);
            numbers[2 * t + 380] = x;
            numbers[2 * t + 383] = x;
        }
        Pairs { b, numbers }
    }

    /// The first pair of rows that reaches window i. (It is `(16 * i).saturating_sub(len / 2)`, by which inversions
    /// were measured to take 4 % longer.)
    fn first_pair(&self, i: usize) -> usize
        requires { i < 128 }
        ensures { 0 < result → length self.now.b.now + 2 * result ≤ 32 * i + 1 }
    {
        let base = 32 * i;
        let len = self.b.len();
        if base < len { 0 } else { (base + 1 - len) / 2 }
    }

    /// How many windows `rows` rows times b reach. (`div_ceil` takes a test more.)
    fn windows(&self, rows: usize) -> usize
        requires { rows ≤ 192 }
        ensures enough { rows + length self.now.b.now ≤ 32 * result + 1 }
        ensures most { 32 * result ≤ rows + length self.now.b.now + 30 }
    {
        (rows + self.b.len() + 30) / 32
    }

    /// Window i of a group of rows times b: the 32 coefficients from 32·i on. The pairs of rows that are left out
    /// give nothing there.
    fn window(&self, rows: &[u16], i: usize) -> u32x32
        requires group { IsGroup rows.now }
        requires near { 32 * i + 2 ≤ length rows.now + length self.now.b.now }
        ensures value { (l : ℕ) → l < 32 → slice_index result l ≡ pair_sum rows.now self.now.numbers.now (190 + (32 * i + l)) }
        ensures bound { AtMost 4045075200 result }
    {
        let pairs = self.numbers;
        let base = 32 * i;
        let mut sums = u32x32::splat(0);
        // m is counted, since it goes up the rows and down the pairs at once.
        for m in self.first_pair(i)..end_pair(i, rows.len()) {
            let met = u16x64::from_slice(&pairs[2 * base + 4 * (95 - m)..]);
            sums = plus(
                sums,
                pair_products(met, in_turn(rows[2 * m], rows[2 * m + 1])),
            );
        }
        sums
    }

    /// Adds a group of rows times b to the windows that `out` is cut into.
    fn add_rows(&self, rows: &[u16], out: &mut [u16])
        requires group { IsGroup rows.now }
        requires whole { length out.old % 32 ≡ 0 }
        requires near { length out.old ≤ length rows.now + length self.now.b.now + 30 }
        ensures { (j : ℕ) → j < length out.old → slice_index out.new j ≡ (slice_index out.old j + pair_sum rows.now self.now.numbers.now (190 + j)) % Q }
    {
        // Not by `chunks_exact_mut`: a proof does not know what the windows that it lends hold after the loop.
        for i in 0..out.len() / 32 {
            let lanes = self.window(rows, i);
            add_window::<Q>(&mut out[32 * i..32 * i + 32], lanes);
        }
    }

    /// Adds the rows times b to zeros, group by group.
    fn add_groups(&self, rows: &[u16], sums: &mut [u16])
        requires most { length rows.now ≤ ROWS }
        requires even { length rows.now % 2 ≡ 0 }
        requires codes { (k : ℕ) → code Q (slice_index rows.now k) ≡ slice_index rows.now k }
        requires room { length sums.old ≡ SUMS }
        requires zeros { AllZero sums.old }
        ensures { (k : ℕ) → slice_index sums.new k ≡ nat_coef Q rows.now self.now.b.now k % Q }
    {
        for (i, group) in rows.chunks(GROUP).enumerate() {
            let start = GROUP * i;
            let end = start + 32 * self.windows(group.len());
            self.add_rows(group, &mut sums[start..end]);
        }
    }
}

/// The codes of a, and then zeros.
fn codes<const Q: u16>(a: &[u16], rows: &mut [u16])
    requires room { length a.now ≤ length rows.old }
    requires zeros { AllZero rows.old }
    ensures { (k : ℕ) → slice_index rows.new k ≡ code Q (slice_index a.now k) }
{
    // By index: of a `zip` of `rows` a contract would not know what was written.
    for (i, x) in a.iter().enumerate() {
        rows[i] = read::<Q>(*x);
    }
}

/// The least even number that is not below n.
fn evened(n: usize) -> usize
    requires { n ≤ ROWS }
    ensures even { result % 2 ≡ 0 }
    ensures enough { n ≤ result }
    ensures most { result ≤ ROWS }
{
    n.next_multiple_of(2)
}

/// Whether the kernel takes lists of these lengths. Lengths are no secret.
pub(crate) fn fits(a: &[u16], b: &[u16], out: &[u16]) -> bool
    ensures { IsTrue result ↔ (length a.now ≤ ROWS) × (length b.now ≤ TERMS) × (length out.now ≤ SUMS) }
{
    a.len() <= ROWS && b.len() <= TERMS && out.len() <= SUMS
}

/// Whether a product takes so few products of two coefficients that they are quicker one by one. Both ways write the
/// same, so nothing is promised of it. Lengths are no secret.
pub(crate) fn is_short(a: &[u16], out: &[u16]) -> bool
    requires left { length a.now ≤ ROWS }
    requires room { length out.now ≤ SUMS }
{
    let rows = a.len().min(out.len());
    rows * (2 * out.len() - rows) / 2 < FEW
}

/// The product of two lists, the constants first: as many coefficients as `out` has. It is never inlined, so that a short
/// product has none of its arrays on the stack.
#[inline(never)]
pub(crate) fn product<const Q: u16>(a: &[u16], b: &[u16], out: &mut [u16])
where
    Residues<Q>: Prime<Q>,
    requires left { length a.now ≤ ROWS }
    requires right { length b.now ≤ TERMS }
    requires room { length out.old ≤ SUMS }
    ensures { out.new ≡ convolution (coded (residues Q)) (length out.old) a.now b.now }
{
    // There is no heap here: the arrays have room for the longest lists that the kernel takes.
    let mut numbers = [0; NUMBERS];
    let pairs = Pairs::<Q>::new(b, &mut numbers);
    let mut rows = [0; ROWS];
    codes::<Q>(a, &mut rows);
    let mut sums = [0; SUMS];
    pairs.add_groups(&rows[..evened(a.len())], &mut sums);
    out.copy_from_slice(&sums[..out.len()]);
}
