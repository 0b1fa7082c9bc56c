// The ways of links that rise: from the last episode to the first. The steps take the words of the links and the ways alone; what is public, and
// `row_rises`, takes longer words too, so the contract says that these are within them. The bound of a number stands where the number is a parameter
// by itself.
#![tactic(auto)]

ghost use Rattle.std.specs.Prelude.{◌≡◌, ℕ, ◌+◌, ◌*◌, ◌<◌, ◌≤◌, length};
ghost use Rattle.bits.specs.Work.{links_at, ways_at, items_at};
ghost use Rattle.rising.specs.Rising.{NoWays, RowTest, RiseTest, EndsTaken, RowReached, LinkNoted, RisingReached};

use bits::{ITEMS, LINKS, WAYS};

// Whether each link of `a` goes to a higher number.
fn row_rises(w: &[u32], a: usize) -> bool
    requires { (items_at ≤ length w.now) × (a < 256) }
    ensures { RowTest w.now a result }
{
    bits::first_bit(w, LINKS + 8 * a).is_none_or(|b| a < b)
}

// Whether each link goes to a higher number.
pub fn rises(w: &[u32], n: usize) -> bool
    requires { (items_at ≤ length w.now) × (n ≤ 256) }
    ensures { RiseTest w.now n result }
{
    (0..n).all(|a| row_rises(w, a))
}

// Gives the ways of an episode, which start at word `ways`, its links to episodes that are not in `linked`; its links start at word `links`.
fn take_ends(w: &mut [u32; ITEMS], links: usize, ways: usize, linked: &[u32; 8])
    requires { (links + 8 ≤ items_at) × (ways + 8 ≤ items_at) }
    ensures { (a : ℕ) → links ≡ links_at + 8 * a → ways ≡ ways_at + 8 * a
        → EndsTaken w.old w.new a linked.now }
{
    let ends = bits::row_without(w, links, linked);
    w[ways..ways + 8].copy_from_slice(&ends);
}

// Gives `a` its ways, where links rise, all above `a` have theirs, and those of them that have links are in `linked`: first the links to
// episodes without links, then each link that is not among the ways yet, and the ways from there.
fn reach_row(w: &mut [u32; ITEMS], a: usize, linked: &[u32; 8])
    requires { a < 256 }
    ensures { RowReached w.old w.new a linked.now }
{
    let links = LINKS + 8 * a;
    let ways = WAYS + 8 * a;
    take_ends(w, links, ways, linked);
    // By place: each turn changes the words that the next one reads, so no iterator can hold them.
    let mut from = a + 1;
    while let Some(b) = bits::next_new(w, links, ways, from) {
        bits::set_bit(w, ways, b);
        bits::join_row(w, ways, WAYS + 8 * b);
        from = b + 1;
    }
}

// Notes in `linked` whether `a` has a link.
fn note_linked(w: &[u32; ITEMS], a: usize, linked: &mut [u32; 8])
    requires { a < 256 }
    ensures { LinkNoted w.now a linked.old linked.new }
{
    if bits::first_bit(w, LINKS + 8 * a).is_some() {
        bits::set_bit(linked, 0, a);
    }
}

// The ways of links that rise, from the last episode to the first.
pub fn reach_rising(w: &mut [u32], n: usize)
    requires { (items_at ≤ length w.old) × (n ≤ 256) × NoWays w.old }
    ensures { RisingReached w.old w.new n }
{
    let front = w.first_chunk_mut::<ITEMS>().unwrap();
    let mut linked = [0; 8];
    for a in (0..n).rev() {
        reach_row(front, a, &linked);
        note_linked(front, a, &mut linked);
    }
}
