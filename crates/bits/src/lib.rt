// Rows of bits in lent words: 8 words, 256 bits, to a row. The words may be longer than what is used of them and the row begin anywhere, so the
// contracts say that it is within them; the bound of a number stands where the number is a parameter by itself. `as` stands between u32 and usize,
// since neither has a `From` for the other.
#![tactic(auto)]

ghost use Rattle.std.specs.Prelude.{◌≡◌, false, ℕ, ◌+◌, ◌-◌, ◌*◌, ◌/◌, ◌<◌, ◌≤◌, IfSome, eqb, length, get_or, replicate};
ghost use Rattle.bits.specs.Ones.{left};
ghost use Rattle.bits.specs.Work.{matrix_words, MatrixCopied};
ghost use Rattle.bits.specs.Bits.{digit, bit, BitSet, SetWhere, RowJoined, RowAdded, RowsAdded, RowGained, RowTaken, RowLess, RowCopied, FirstBit, NextNew, place_or_end};

pub mod ones;

pub use ones::{Ones, Row, ones_of};
use std::array;

// The words of a matrix of bits: a row of 8 words for each of 256 episodes or items.
const MATRIX: usize = 2048;

// The regions of the work words: the links and the ways, each a row of bits for each episode, and the pairs of items, a row for each item; the tables
// of the search, 256 words each; the bits of what it has seen, of what earlier searches have seen in vain, and bits of which none is set: no code
// reads the last; the tables of the episodes and the items, 256 words each.
pub const LINKS: usize = 0;

pub const WAYS: usize = 2048;

pub const ITEMS: usize = 4096;

pub const NEXT: usize = 6144;

pub const PREV: usize = 6400;

pub const VIA: usize = 6656;

pub const QUEUE: usize = 6912;

pub const SEEN: usize = 7168;

pub const DEAD: usize = 7176;

pub const NONE: usize = 7184;

pub const VOICES: usize = 7192;

pub const STARTS: usize = 7448;

pub const OWNERS: usize = 7704;

// Whether digit `d` of the word at `at` is set.
pub fn digit_at(w: &[u32], at: usize, d: usize) -> bool
    requires { (at < length w.now) × (d < 32) }
    ensures { result ≡ eqb (digit (get_or w.now at 0) d) 1 }
{
    (w[at] >> d) % 2 == 1
}

// Whether bit `b` of the row that starts at word `row` is set.
pub fn bit_at(w: &[u32], row: usize, b: usize) -> bool
    requires { row + b / 32 < length w.now }
    ensures { result ≡ eqb (bit w.now row b) 1 }
{
    digit_at(w, row + b / 32, b % 32)
}

// Sets bit `b` of the row that starts at word `row`.
pub fn set_bit(w: &mut [u32], row: usize, b: usize)
    requires { row + b / 32 < length w.old }
    ensures { BitSet w.old w.new row b }
{
    w[row + b / 32] |= 1 << (b % 32);
}

// Sets bit `b` of the row that starts at word `row` where `on` says so, without a branch.
pub fn set_bit_where(w: &mut [u32], row: usize, b: usize, on: bool)
    requires { row + b / 32 < length w.old }
    ensures { SetWhere on w.old w.new row b }
{
    w[row + b / 32] |= u32::from(on) << (b % 32);
}

// Joins the row `from` into the row `to`.
fn join(to: &mut [u32], from: &[u32])
    requires { (length to.old ≡ 8) × (length from.now ≡ 8) }
    ensures { RowAdded from.now 0 to.old to.new }
{
    // By place in both: `zip` beside `iter_mut` was tried, and leaves the checker without the fact that both are at one place.
    for (i, word) in to.iter_mut().enumerate() {
        *word |= from[i];
    }
}

// Joins the row that starts at word `row` of `w` into the row `v`.
pub fn join_into(w: &[u32], row: usize, v: &mut [u32])
    requires { (row + 8 ≤ length w.now) × (length v.old ≡ 8) }
    ensures { RowAdded w.now row v.old v.new }
{
    join(v, &w[row..row + 8]);
}

// Joins into the row `v` those of the rows of `w` from word `base` on that the digits of `x` name.
pub fn join_rows(w: &[u32], base: usize, x: u32, v: &mut [u32; 8])
    requires { base + 256 ≤ length w.now }
    ensures { RowsAdded w.now base x v.old v.new }
{
    for i in ones_of(x) {
        join_into(w, base + 8 * i, v);
    }
}

// Joins the row `v` into the row that starts at word `row` of `w`.
pub fn join_from(v: &[u32], w: &mut [u32], row: usize)
    requires { (length v.now ≡ 8) × (row + 8 ≤ length w.old) }
    ensures { RowGained v.now w.old w.new row }
{
    join(&mut w[row..row + 8], v);
}

// The row that starts at word `row`, by itself.
pub fn row_at(w: &[u32], row: usize) -> [u32; 8]
    requires { row + 8 ≤ length w.now }
    ensures { RowTaken w.now row result }
{
    let mut words = [0; 8];
    words.copy_from_slice(&w[row..row + 8]);
    words
}

// Joins the row that starts at word `from` into the one that starts at word `to`.
pub fn join_row(w: &mut [u32], to: usize, from: usize)
    requires { (to + 8 ≤ length w.old) × (from + 8 ≤ length w.old) }
    ensures { (base a k : ℕ) → to ≡ base + 8 * a → from ≡ base + 8 * k → RowJoined w.old w.new base a k }
{
    join_from(&row_at(w, from), w, to);
}

// Copies the row that starts at word `from` to the one that starts at word `to`.
pub fn copy_row(w: &mut [u32], to: usize, from: usize)
    requires { (to + 8 ≤ length w.old) × (from + 8 ≤ length w.old) }
    ensures { RowCopied w.old w.new to from }
{
    let row = row_at(w, from);
    w[to..to + 8].copy_from_slice(&row);
}

// Copies the matrix that starts at word `from` to where one starts at word `to`, behind it.
pub fn copy_matrix(w: &mut [u32], from: usize, to: usize)
    requires { (from + matrix_words ≤ to) × (to + matrix_words ≤ length w.old) }
    ensures { MatrixCopied w.old w.new from to }
{
    // Word by word: `copy_from_slice` of so many would be a call of C's `memcpy`, and the archive asks a caller for `memset` alone.
    for i in 0..MATRIX {
        w[to + i] = w[from + i];
    }
}

// The bits that `word` has and `other` has not.
pub fn without(word: u32, other: u32) -> u32
    ensures { (i : ℕ) → digit result i ≡ digit word i - digit other i }
{
    (word | other) ^ other
}

// The row that starts at word `row`, by itself, without the bits that `other` has.
pub fn row_without(w: &[u32], row: usize, other: &[u32; 8]) -> [u32; 8]
    requires { row + 8 ≤ length w.now }
    ensures { RowLess w.now row other.now result }
{
    array::from_fn(|i| without(w[row + i], other[i]))
}

// Whether the row `v` has a bit.
pub fn any(v: &[u32; 8]) -> bool
    ensures { result ≡ false → (b : ℕ) → b < 256 → bit v.now 0 b ≡ 0 }
{
    let mut all = 0;
    for word in v {
        all |= *word;
    }
    all != 0
}

// The bits of the row that starts at word `row`.
pub fn bits_of(w: &[u32], row: usize) -> Row<'_>
    requires { row + 8 ≤ length w.now }
    ensures { (b : ℕ) → left result b ≡ bit w.now row b }
{
    Row {
        words: w,
        row,
        place: 0,
        ones: ones_of(w[row]),
    }
}

// The first bit of the row that starts at word `row`.
pub fn first_bit(w: &[u32], row: usize) -> Option<usize>
    requires { row + 8 ≤ length w.now }
    ensures first { FirstBit w.now row (place_or_end result) }
    ensures below { IfSome result (λ b. b < 256) }
{
    bits_of(w, row).next()
}

// The first bit from `from` on that the row at `row` has and the row at `seen` has not.
pub fn next_new(w: &[u32], row: usize, seen: usize, from: usize) -> Option<usize>
    requires { (row + 8 ≤ length w.now) × (seen + 8 ≤ length w.now) × (from ≤ 256) }
    ensures first { NextNew w.now row seen from (place_or_end result) }
    ensures below { IfSome result (λ b. b < 256) }
{
    // By hand: a range over the words would be no plainer, since the first word is shifted and the others are not.
    let mut at = from;
    while at < 256 {
        let i = at / 32;
        let ones = without(w[row + i], w[seen + i]) >> (at % 32);
        if ones != 0 {
            return Some(at + ones.trailing_zeros() as usize);
        }
        at = (i + 1) * 32;
    }
    None
}

// Makes every word zero.
pub fn clear(w: &mut [u32])
    ensures { w.new ≡ replicate (length w.old) 0 }
{
    w.fill(0);
}
