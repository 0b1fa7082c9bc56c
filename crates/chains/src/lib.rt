// Chains of items in the work words: first pairs as they come, then an augmenting search from the end of each chain, which joins it to another.
// What a search has seen in vain is dead: no later search looks at it. `w, base, m, a` go together as in `searching`, and the contracts say what a
// function wants of the words.
#![tactic(auto)]

ghost use Rattle.std.specs.Prelude.{◌+◌, ◌<◌};
ghost use Rattle.bits.specs.Work.{links_at};
ghost use Rattle.searching.specs.Items.{Pairing};
ghost use Rattle.searching.specs.State.{tables, Pairs, Sized, Extendable};
ghost use Rattle.chains.specs.Joined.{PairedIn, ExtendedIn, Chained, JoinedIn, NoneBehind, SelvesIn, LoopedIn};

use bits::{DEAD, LINKS, SEEN};

// Puts behind `a` the first item that it has in the matrix at `base` and that stands behind none yet, if there is one. What stands behind
// an item is marked as seen.
fn pair(w: &mut [u32], base: usize, m: usize, a: usize)
    requires { Sized w.old base m × Pairing m (Pairs base w.old) (tables w.old) a × (a < m) }
    ensures { PairedIn w.old w.new base m (a + 1) }
{
    if let Some(b) = bits::next_new(w, base + 8 * a, SEEN, 0)
        && b < m
    {
        bits::set_bit(w, SEEN, b);
        searching::put_behind(w, a, b);
    }
}

// From single items to pairs, as they come.
fn first_pairs(w: &mut [u32], base: usize, m: usize)
    requires { Sized w.old base m × NoneBehind w.old }
    ensures { PairedIn w.old w.new base m m }
{
    searching::forget(w);
    for a in 0..m {
        pair(w, base, m, a);
    }
}

// Where `a` ends a chain, one chain fewer if a search from `a` finds how; what a search in vain has seen is dead from then on, and what
// another has seen is not seen any more.
fn extend(w: &mut [u32], base: usize, m: usize, a: usize)
    requires { Extendable w.old base m a × (a < m) }
    ensures { ExtendedIn w.old w.new base m a }
{
    if searching::next_of(w, a).is_some() {
        return;
    }
    let Some(found) = searching::search(w, base, m, a) else {
        bits::copy_row(w, DEAD, SEEN);
        return;
    };
    // By `while let`: each step changes the words, so no iterator can hold them.
    let mut item = Some(found);
    while let Some(b) = item {
        item = searching::flip(w, b);
    }
    bits::copy_row(w, SEEN, DEAD);
}

// From chains of pairs of the matrix to as few as can be. As in `first_pairs`, two lines around another call: a function of the call would be as long.
fn extend_all(w: &mut [u32], base: usize, m: usize)
    requires { Chained w.old base m }
    ensures { JoinedIn w.old w.new base m }
{
    searching::forget(w);
    for from in 0..m {
        extend(w, base, m, from);
    }
}

// From single items to as few chains as can be.
pub fn join(w: &mut [u32], base: usize, m: usize)
    requires { Sized w.old base m × NoneBehind w.old }
    ensures { JoinedIn w.old w.new base m }
{
    first_pairs(w, base, m);
    extend_all(w, base, m);
}

// Puts each item but `v` behind itself.
fn behind_itself(w: &mut [u32], m: usize, v: usize)
    requires { Sized w.old links_at m × (v < m) × NoneBehind w.old }
    ensures { SelvesIn w.old w.new m v }
{
    for a in 0..m {
        if a != v {
            searching::put_behind(w, a, a);
        }
    }
}

// Finds a loop through `v`: a shortest walk of links from `v` to `v` is what an augmenting search shows where each other item is behind
// itself.
pub fn find_loop(w: &mut [u32], m: usize, v: usize)
    requires { Sized w.old links_at m × (v < m) × NoneBehind w.old }
    ensures { LoopedIn w.old w.new m v }
{
    behind_itself(w, m, v);
    searching::forget(w);
    extend(w, LINKS, m, v);
}
