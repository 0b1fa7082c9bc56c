// The trimmed copy of a log: the voices words, then the groups, row by row: what the ways of an episode's links hold together is implied, and its links
// less that are written, to a lent output, since nothing is allocated; what is written is counted. The matrices stand among other words, so the
// contracts say that they are within them; `g` there is every graph that stands in the words.
#![tactic(auto)]

ghost use Rattle.std.specs.Prelude.{◌≡◌, Bool, List, ℕ, ◌+◌, ◌*◌, ◌<◌, ◌≤◌, length, replicate};
ghost use Rattle.paths.specs.Graph.{Graph};
ghost use Rattle.paths.specs.Passing.{passing};
ghost use Rattle.bits.specs.Work.{links_at, ways_at, next_at};
ghost use Rattle.writing.specs.Layout.{BeginsWith};
ghost use Rattle.writing.proofs.Listing.{Listing};
ghost use Rattle.copying.specs.FairCopy.{linked_to, group};
ghost use Rattle.copying.specs.Copying.{LinksWritten};
ghost use Rattle.trimming.specs.TrimmedCopy.{trimmed, no_pause, trimmed_words};
ghost use Rattle.trimming.specs.Trimming.{Held, HoldsImplied, kept_to, to_unpaused, TellsDigits};

use bits::{LINKS, VOICES, WAYS};
use logs::{Head, Kind};

// Notes what is implied of the links in the row that starts at word `row`: joins the ways of each. A link that is implied itself has no way
// that is not noted.
fn note_implied(w: &[u32], row: usize, implied: &mut [u32; 8])
    requires { (next_at ≤ length w.now) × (row + 8 ≤ ways_at) × (implied.old ≡ replicate 8 0) }
    ensures { (a : ℕ) → row ≡ links_at + 8 * a → HoldsImplied w.now a implied.new }
{
    // `implied` by place, since each turn joins into it.
    for (i, links) in w[row..row + 8].iter().enumerate() {
        let fresh = bits::without(*links, implied[i]);
        bits::join_rows(w, WAYS + 256 * i, fresh, implied);
    }
}

// Writes a to word for each bit of `kept`, counted from `first` on, behind `links` others, and gives the count of all.
fn write_word(kept: u32, first: usize, links: usize, out: &mut [u32]) -> usize
    requires { ((test : ℕ → Bool) × (o : List ℕ) × TellsDigits test kept first × Listing test to_unpaused o out.old 256 links first
        × (length (passing test 256) < length o)) × (first + 32 ≤ 256) }
    ensures { (test : ℕ → Bool) (o : List ℕ) → TellsDigits test kept first → Listing test to_unpaused o out.old 256 links first
        → length (passing test 256) < length o → Listing test to_unpaused o out.new 256 result (first + 32) }
{
    // The count goes on from word to word and is given back, so `zip` with a range would be no plainer.
    let mut count = links;
    for bit in bits::ones_of(kept) {
        count += 1;
        out[count] = Kind::To.word(first + bit);
    }
    count
}

// Writes a to word for each link in the row that starts at word `row` that is not implied, and gives their count.
fn write_row(w: &[u32], row: usize, implied: &[u32; 8], out: &mut [u32]) -> usize
    requires { (row + 8 ≤ length w.now) × ((a : ℕ) × (row ≡ links_at + 8 * a) × (length (kept_to w.now a implied.now) < length out.old)) }
    ensures { (a : ℕ) → row ≡ links_at + 8 * a → LinksWritten (no_pause a) (kept_to w.now a implied.now) out.old out.new result }
{
    let mut links = 0;
    for (i, kept) in bits::row_without(w, row, implied).iter().enumerate() {
        links = write_word(*kept, 32 * i, links, out);
    }
    links
}

// The links of `a` that stay, written.
fn trim_row(w: &[u32], n: usize, a: usize, out: &mut [u32]) -> usize
    requires { ((g : Graph) × Held g n w.now × (length (group a (no_pause a) (linked_to a (trimmed g).links n)) < length out.old)) × (a < n) }
    ensures { (g : Graph) → Held g n w.now
        → LinksWritten (no_pause a) (linked_to a (trimmed g).links n) out.old out.new result }
{
    let row = LINKS + 8 * a;
    let mut implied = [0; 8];
    note_implied(w, row, &mut implied);
    write_row(w, row, &implied, out)
}

// Writes the trimmed copy, of version 0, of a graph with `n` episodes, from its links, ways and voices, and gives its count of words.
pub fn write_trimmed(w: &[u32], n: usize, out: &mut [u32]) -> usize
    requires { (g : Graph) × Held g n w.now × (length (trimmed_words g) ≤ length out.old) }
    ensures { (g : Graph) → Held g n w.now → length (trimmed_words g) ≤ length out.old
        → (result ≡ length (trimmed_words g)) × BeginsWith (trimmed_words g) out.old out.new }
{
    let start = copying::write_voices(&w[VOICES..VOICES + n], out);
    let head = Head {
        version: 0,
        episodes: n,
    };
    copying::write_by_rows(head, start, out, |a, rest| trim_row(w, n, a, rest))
}
