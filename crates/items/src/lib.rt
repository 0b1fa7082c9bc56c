// The items in the work words: an episode with c voices is c items, in the order of the episodes. The tables say how many voices an episode has, where
// its items start and whose an item is; the matrix, which item may stand behind which.
#![tactic(auto)]

ghost use Rattle.std.specs.Prelude.{◌≡◌, ℕ, ◌+◌, ◌*◌, ◌<◌, ◌≤◌, ◌↔◌, IsTrue, length, replicate};
ghost use Rattle.bits.specs.Work.{matrix_words, starts_at, used_words, Outside};
ghost use Rattle.paths.specs.Items.{owners};
ghost use Rattle.items.specs.Listed.{voices_in, start_in, owner_in, Listed, WaysBelow, PairsIn};
ghost use Rattle.items.specs.Pairing.{Added, Numbered, ListedAlike, WaysCopied, BitsSet, HasMasks, Ready, HoldsItems, ItemsPaired};

use bits::{ITEMS, OWNERS, STARTS, VOICES, WAYS};

// The words of the masks: for each episode a row with the bits of its items.
const MASKS: usize = 2048;

// The voices of the episode `v`.
pub fn voices_of(w: &[u32], v: usize) -> usize
    requires { (used_words ≤ length w.now) × (v < 256) }
    ensures { result ≡ voices_in w.now v }
{
    w[VOICES + v] as usize
}

// Where the items of the episode `v` start.
pub fn start_of(w: &[u32], v: usize) -> usize
    requires { (used_words ≤ length w.now) × (v < 256) }
    ensures { result ≡ start_in w.now v }
{
    w[STARTS + v] as usize
}

// Whose the item `x` is.
pub fn owner_of(w: &[u32], x: usize) -> usize
    requires { (used_words ≤ length w.now) × (x < 256) }
    ensures { result ≡ owner_in w.now x }
{
    w[OWNERS + x] as usize
}

// Puts the items of `v` behind the `m` that there are, and gives the count of all.
fn add(w: &mut [u32], v: usize, m: usize) -> usize
    requires { (used_words ≤ length w.old) × (v < 256) × (m + voices_in w.old v ≤ 256) }
    ensures { Added w.old w.new v m result }
{
    let voices = voices_of(w, v);
    w[STARTS + v] = m as u32;
    let first = OWNERS + m;
    w[first..first + voices].fill(v as u32);
    m + voices
}

// Whether each of `n` episodes has one voice.
fn all_one(w: &[u32], n: usize) -> bool
    requires { (used_words ≤ length w.now) × (n ≤ 256) }
    ensures { IsTrue result ↔ ((v : ℕ) → v < n → voices_in w.now v ≡ 1) }
{
    // All are counted, without a branch, and so several at a time.
    let mut others = 0;
    for v in 0..n {
        others += u32::from(w[VOICES + v] != 1);
    }
    others == 0
}

// Makes each word the number of its place.
fn number(table: &mut [u32])
    requires { length table.old ≤ 256 }
    ensures { Numbered table.old table.new }
{
    for (i, word) in table.iter_mut().enumerate() {
        *word = i as u32;
    }
}

// Lists the items where each of `n` episodes has one voice: they are the episodes.
fn list_alike(w: &mut [u32], n: usize)
    requires { (used_words ≤ length w.old) × (n ≤ 256) }
    ensures { ListedAlike w.old w.new n }
{
    number(&mut w[STARTS..STARTS + n]);
    number(&mut w[OWNERS..OWNERS + n]);
}

// Lists the items where not each of `n` episodes has one voice, and gives their count.
fn list_all(w: &mut [u32], n: usize) -> usize
    requires { (used_words ≤ length w.old) × (n ≤ 256) × (length (owners (voices_in w.old) n) < 256) }
    ensures listed { Listed w.new n result }
    ensures outside { Outside starts_at used_words w.old w.new }
{
    let mut m = 0;
    for v in 0..n {
        m = add(w, v, m);
    }
    m
}

// Lists the items of `n` episodes by their voices, and gives their count.
pub fn list(w: &mut [u32], n: usize) -> usize
    requires { (used_words ≤ length w.old) × (n ≤ 256) × (length (owners (voices_in w.old) n) < 256) }
    ensures listed { Listed w.new n result }
    ensures outside { Outside starts_at used_words w.old w.new }
{
    if !all_one(w, n) {
        return list_all(w, n);
    }
    list_alike(w, n);
    n
}

// Copies the ways to where the pairs of items are to stand.
fn copy_ways(w: &mut [u32])
    requires { used_words ≤ length w.old }
    ensures { WaysCopied w.old w.new }
{
    bits::copy_matrix(w, WAYS, ITEMS);
}

// Sets the bits of the items of `b` in its row of the masks.
fn mark_items(w: &[u32], b: usize, masks: &mut [u32; MASKS])
    requires { (used_words ≤ length w.now) × (b < 256) × (start_in w.now b + voices_in w.now b ≤ 256) }
    ensures { BitsSet masks.old masks.new (8 * b) (start_in w.now b) (start_in w.now b + voices_in w.now b) }
{
    let start = start_of(w, b);
    for x in start..start + voices_of(w, b) {
        bits::set_bit(masks, 8 * b, x);
    }
}

// The masks of `n` episodes, in words that are zero.
fn mark_all(w: &[u32], n: usize, masks: &mut [u32; MASKS])
    requires { ((m : ℕ) × Listed w.now n m) × (masks.old ≡ replicate matrix_words 0) }
    ensures { (m : ℕ) → Listed w.now n m → HasMasks w.now n m masks.new }
{
    for b in 0..n {
        mark_items(w, b, masks);
    }
}

// The row of each item of `a`: the items of those that `a` has a way to.
fn item_row(w: &[u32], masks: &[u32; MASKS], a: usize) -> [u32; 8]
    requires { (n : ℕ) × (m : ℕ) × Ready w.now masks.now n m a }
    ensures { (n m : ℕ) → Ready w.now masks.now n m a → HoldsItems w.now m a result }
{
    let mut row = [0; 8];
    let at = WAYS + 8 * a;
    for (i, ways) in w[at..at + 8].iter().enumerate() {
        bits::join_rows(masks, 256 * i, *ways, &mut row);
    }
    row
}

// Gives each item of `a` its row.
fn pair_items(w: &mut [u32], masks: &[u32; MASKS], a: usize)
    requires { (n : ℕ) × (m : ℕ) × Ready w.old masks.now n m a }
    ensures { (n m : ℕ) → Ready w.old masks.now n m a → ItemsPaired w.old w.new m a }
{
    let row = item_row(w, masks, a);
    let start = start_of(w, a);
    for x in start..start + voices_of(w, a) {
        let at = ITEMS + 8 * x;
        w[at..at + 8].copy_from_slice(&row);
    }
}

// The pairs of items where not each episode has one voice.
fn pair_all(w: &mut [u32], n: usize)
    requires { (m : ℕ) × Listed w.old n m × WaysBelow w.old n }
    ensures { (m : ℕ) → Listed w.old n m → WaysBelow w.old n → PairsIn w.old w.new m }
{
    let mut masks = [0; MASKS];
    mark_all(w, n, &mut masks);
    for a in 0..n {
        if voices_of(w, a) > 0 {
            pair_items(w, &masks, a);
        }
    }
}

// The pairs of items, from the ways of their owners.
pub fn pair(w: &mut [u32], n: usize, m: usize)
    requires { Listed w.old n m × WaysBelow w.old n }
    ensures { PairsIn w.old w.new m }
{
    if all_one(w, n) {
        copy_ways(w);
    } else {
        pair_all(w, n);
    }
}
