// Writes the words of a report or of a loop, from the chains in the work words, to a lent output, since nothing is allocated; what is written is
// counted. A chain is followed by `while let`: the checker holds `successors` to be endless, and an iterator of our own would have the loops'
// measures as its laws, and be longer than the loops. `g` and `n` in a contract are of every graph that stands in the words.
#![tactic(auto)]

ghost use Rattle.std.specs.Prelude.{◌≡◌, true, false, List, ◌∷◌, ℕ, ◌+◌, ◌*◌, ◌-◌, ◌<◌, ◌≤◌, length};
ghost use Rattle.paths.specs.Graph.{Graph, Thread, Loop};
ghost use Rattle.bits.specs.Bits.{bit};
ghost use Rattle.bits.specs.Work.{ways_at, used_words};
ghost use Rattle.searching.specs.Items.{Matching, member_test, members};
ghost use Rattle.searching.specs.State.{tables};
ghost use Rattle.items.specs.Listed.{voices_in};
ghost use Rattle.writing.specs.Path.{PathWritten};
ghost use Rattle.writing.specs.Writing.{Solved, IsSolved, apart_test, apart_in, ReportRoom, ApartWritten, StartOf, HopTo, ThreadWritten, ThreadsWritten, ReportWritten, Looping, LoopWritten};

use bits::{LINKS, SEEN, WAYS};
use logs::Kind;

// The work words of a solved graph with so many episodes and items: its links, its ways, its voices, as few chains of items as can be, and the search
// that shows it.
#[derive(Clone, Copy)]
struct Chains<'a> {
    words: &'a [u32],
    episodes: usize,
    items: usize,
    ghost few: { episodes < 256 },
    ghost few_items: { items < 256 },
    ghost long: { used_words ≤ length words.now },
    ghost matching: { Matching items (tables words.now) },
    ghost solved: { IsSolved episodes items words.now },
}

impl Chains<'_> {
    // Whether the item `v` is a member of the antichain: it ends its chain or the item behind it is seen, and it is not seen itself.
    #[tactic(auto, using(bits::proofs::Rows::bit_lt, std::proofs::lemmas::Bool::Decides::nat_tests))]
    fn is_member(&self, v: usize) -> bool
        requires { v < self.now.items }
        ensures { result ≡ member_test (tables self.now.words.now) v }
    {
        if bits::bit_at(self.words, SEEN, v) {
            return false;
        }
        match searching::next_of(self.words, v) {
            None => true,
            Some(next) => bits::bit_at(self.words, SEEN, next),
        }
    }

    // The voices of the episode `v` where it is in the apart set, or 0: the first of its items, with which the others come, is then a member of the
    // antichain.
    fn apart_voices(&self, v: usize) -> usize
        requires { v < self.now.episodes }
        ensures { result ≡ elim (apart_test self.now.words.now v) [ true ↦ voices_in self.now.words.now v | false ↦ 0 ] }
    {
        let voices = items::voices_of(self.words, v);
        if voices != 0 && self.is_member(items::start_of(self.words, v)) {
            voices
        } else {
            0
        }
    }

    // Writes kind 4 with the width and the apart set, and gives the count of its members.
    fn write_apart(&self, out: &mut [u32]) -> usize
        requires { self.now.episodes + 1 ≤ length out.old }
        ensures { ApartWritten self.now.words.now out.old out.new self.now.episodes result }
    {
        let mut count = 0;
        let mut width = 0;
        for v in 0..self.episodes {
            let voices = self.apart_voices(v);
            if voices != 0 {
                count += 1;
                width += voices;
                out[count] = Kind::Apart.word(v);
            }
        }
        out[0] = Kind::Width.word(width);
        count
    }

    // The first item of the chain of `v`.
    fn start_of(&self, v: usize) -> usize
        requires { v < self.now.items }
        ensures { StartOf self.now.words.now v result }
    {
        let mut x = v;
        while let Some(before) = searching::previous_of(self.words, x) {
            x = before;
        }
        x
    }

    // The next episode on a path from `c` to `b`: `b` where there is a link, else the first that `c` has a link to and that has a way to `b`.
    fn hop(&self, c: usize, b: usize) -> usize
        requires { (c < self.now.episodes) × (b < self.now.episodes) × (bit self.now.words.now (ways_at + 8 * c) b ≡ 1) }
        ensures { HopTo self.now.words.now c b result }
    {
        let row = LINKS + 8 * c;
        if bits::bit_at(self.words, row, b) {
            return b;
        }
        // Where each row of ways has its bit `b`.
        let column = WAYS + b / 32;
        let digit = b % 32;
        for x in bits::bits_of(self.words, row) {
            if bits::digit_at(self.words, column + 8 * x, digit) {
                return x;
            }
        }
        b
    }

    // Writes the steps of a path from `c` to `b` but for `c`, and gives their count.
    fn write_path(&self, c: usize, b: usize, out: &mut [u32]) -> usize
        requires { (c < self.now.episodes) × (b < self.now.episodes) × (bit self.now.words.now (ways_at + 8 * c) b ≡ 1)
            × ((g : Graph) → Solved g self.now.episodes self.now.items self.now.words.now → (p : List ℕ) → Thread g (c ∷ p) → length p ≤ length out.old) }
        ensures { PathWritten self.now.words.now out.old out.new self.now.episodes self.now.items c b result }
    {
        // A step is taken before it is asked whether that was the last.
        let mut at = c;
        let mut count = 0;
        loop {
            at = self.hop(at, b);
            out[count] = Kind::Step.word(at);
            count += 1;
            if at == b {
                return count;
            }
        }
    }

    // Writes a thread that holds the owners of the chain of the item `v`, and gives the count of its words. Each step of the chain, which is a way of the
    // owners, is filled with the links of a path.
    fn write_thread(&self, v: usize, out: &mut [u32]) -> usize
        requires { (v < self.now.items)
            × ((g : Graph) → Solved g self.now.episodes self.now.items self.now.words.now → (th : List ℕ) → Thread g th → length th + 1 ≤ length out.old) }
        ensures { ThreadWritten self.now.words.now out.old out.new self.now.episodes self.now.items v result }
    {
        let mut item = self.start_of(v);
        let mut at = items::owner_of(self.words, item);
        let mut count = 2;
        out[1] = Kind::Step.word(at);
        while let Some(next) = searching::next_of(self.words, item) {
            let to = items::owner_of(self.words, next);
            count += self.write_path(at, to, &mut out[count..]);
            item = next;
            at = to;
        }
        out[0] = Kind::Thread.word(count - 1);
        count
    }

    // Writes a thread for each member of the antichain, and gives the count of their words.
    fn write_threads(&self, out: &mut [u32]) -> usize
        requires { let n = self.now.episodes in let w = self.now.words.now in
            length (members (tables w) self.now.items) * (n + 2 - length (apart_in w n)) ≤ length out.old }
        ensures { ThreadsWritten self.now.words.now out.old out.new self.now.episodes self.now.items result }
    {
        let mut at = 0;
        for v in 0..self.items {
            if self.is_member(v) {
                let count = self.write_thread(v, &mut out[at..]);
                at += count;
            }
        }
        at
    }
}

// Writes a whole report, and gives the count of its words.
pub fn write_report(w: &[u32], n: usize, m: usize, out: &mut [u32]) -> usize
    requires { (g : Graph) × Solved g n m w.now × ReportRoom g (length out.old) }
    ensures { ReportWritten w.now out.old out.new n m result }
{
    let chains = Chains {
        words: w,
        episodes: n,
        items: m,
    };
    let start = chains.write_apart(out) + 1;
    let end = start + chains.write_threads(&mut out[start..]);
    out[end] = Kind::End.word(end);
    end + 1
}

// Writes the loop from `v` on, and gives its length.
pub fn write_loop(w: &[u32], v: usize, out: &mut [u32]) -> usize
    requires { (g : Graph) × (n : ℕ) × Looping g n v w.now × ((c : List ℕ) → Loop g c → length c + 1 ≤ length out.old) }
    ensures { LoopWritten w.now out.old out.new v result }
{
    let mut at = v;
    let mut count = 1;
    out[1] = Kind::Step.word(v);
    while let Some(next) = searching::next_of(w, at)
        && next != v
    {
        count += 1;
        out[count] = Kind::Step.word(next);
        at = next;
    }
    out[0] = Kind::Loop.word(count);
    count
}
