// Chains of items in the work words, and an augmenting search from the end of one of them. The tables stand in lent words, since nothing is
// allocated; these may be longer than the regions, so the contracts say that the regions are within them, and the bound of a number where the number
// is a parameter by itself. `w, base, m, a` go together: a struct of them was tried and was longer, since `search` takes them one by one. `as` stands
// between u32 and usize, since neither has a `From` for the other.
#![tactic(auto)]

ghost use Rattle.std.specs.Prelude.{◌≡◌, ◌<◌, ◌≤◌, length, get_or, unwrap_or, IfSome};
ghost use Rattle.bits.specs.Work.{used_words};
ghost use Rattle.searching.specs.State.{tables, figure, ForgottenIn, PutIn, SawIn, ShowAsked, ShownAs, SearchedIn, FlipAsked, FlippedIn, Extendable};

use bits::{NEXT, NONE, PREV, QUEUE, SEEN, VIA};
use std::ops::ControlFlow;

// Lets nothing be seen and nothing be dead.
pub fn forget(w: &mut [u32])
    requires { used_words ≤ length w.old }
    ensures { ForgottenIn w.old w.new }
{
    w[SEEN..NONE].fill(0);
}

// Puts `b` behind `a`.
pub fn put_behind(w: &mut [u32], a: usize, b: usize)
    requires { (used_words ≤ length w.old) × (a < 256) × (b < 256) }
    ensures { PutIn w.old w.new a b }
{
    w[NEXT + a] = (b + 1) as u32;
    w[PREV + b] = (a + 1) as u32;
}

// What the word at `place` of a table names, an item or a place in the queue: the word is that plus one, or 0 for none, since a table has one word
// for each item.
fn item_at(w: &[u32], place: usize) -> Option<usize>
    requires { place < length w.now }
    ensures { figure result ≡ get_or w.now place 0 }
{
    (w[place] as usize).checked_sub(1)
}

// The item behind `a` on its chain.
pub fn next_of(w: &[u32], a: usize) -> Option<usize>
    requires { (used_words ≤ length w.now) × (a < 256) }
    ensures { figure result ≡ (tables w.now).next a }
{
    item_at(w, NEXT + a)
}

// The item before `b` on its chain.
pub fn previous_of(w: &[u32], b: usize) -> Option<usize>
    requires { (used_words ≤ length w.now) × (b < 256) }
    ensures { figure result ≡ (tables w.now).prev b }
{
    item_at(w, PREV + b)
}

// Marks `b` as seen from the place `head`; the item before it, if there is one, goes into the queue at `tail`.
#[tactic(auto, using(std::proofs::lemmas::Grind::common_steps, bits::proofs::Frames::bit_stored))]
fn see(w: &mut [u32], head: usize, b: usize, tail: usize)
    requires { (used_words ≤ length w.old) × (head < 256) × (b < 256) × (tail < 256) }
    ensures { SawIn w.old w.new head b tail }
{
    bits::set_bit(w, SEEN, b);
    w[VIA + b] = (head + 1) as u32;
    if let Some(before) = previous_of(w, b) {
        w[QUEUE + tail] = before as u32;
    }
}

// Sees what the item at `head` of the queue has in the matrix at `base`, up to an item with none before it, and breaks with that; where there
// is no such item, it continues with the new end of the queue.
fn show(w: &mut [u32], base: usize, m: usize, head: usize, tail: usize) -> ControlFlow<usize, usize>
    requires { ShowAsked w.old base m head tail }
    ensures { ShownAs w.old w.new base m head result }
{
    let row = base + 8 * w[QUEUE + head] as usize;
    // Taken at once, since a bit that `see` sets is not asked for again: bit by bit, each turn would wait for the word that the one before it stored.
    let new = bits::row_without(w, row, &bits::row_at(w, SEEN));
    if !bits::any(&new) {
        return ControlFlow::Continue(tail);
    }
    let mut end = tail;
    for b in bits::bits_of(&new, 0) {
        if m <= b {
            break;
        }
        see(w, head, b, end);
        if previous_of(w, b).is_none() {
            return ControlFlow::Break(b);
        }
        end += 1;
    }
    ControlFlow::Continue(end)
}

// Searches for an item with none before it, from `a`, which ends a chain.
pub fn search(w: &mut [u32], base: usize, m: usize, a: usize) -> Option<usize>
    requires { Extendable w.old base m a × (a < m) × ((tables w.old).next a ≡ 0) }
    ensures found { IfSome result (λ item. item < m) }
    ensures searched { SearchedIn w.old w.new base m a (unwrap_or result m) }
{
    w[QUEUE] = a as u32;
    // By hand, since the queue grows while it is gone through.
    let mut tail = 1;
    let mut head = 0;
    while head < tail {
        match show(w, base, m, head, tail) {
            ControlFlow::Break(item) => return Some(item),
            ControlFlow::Continue(end) => tail = end,
        }
        head += 1;
    }
    None
}

// Puts `b` behind the item from which it was seen, and gives what stood there before.
pub fn flip(w: &mut [u32], b: usize) -> Option<usize>
    requires { FlipAsked w.old b }
    ensures { FlippedIn w.old w.new b (figure result) }
{
    let place = item_at(w, VIA + b).unwrap();
    let a = w[QUEUE + place] as usize;
    let old = next_of(w, a);
    put_behind(w, a, b);
    old
}
