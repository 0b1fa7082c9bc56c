// The link count of a log: how many different links of it count. The limit of 256 episodes is that of the matrix; a log passes at any ceilings.
#![tactic(auto)]

ghost use Rattle.std.specs.Prelude.{◌≡◌, not, ◌&&◌, ℕ, ◌+◌, ◌*◌, ◌/◌, ◌<◌, ◌≤◌, eqb, length};
ghost use Rattle.logs.specs.Log.{service};
ghost use Rattle.bits.specs.Bits.{bit, SetWhere};
ghost use Rattle.link_count.specs.Counted.{Counted, count_answer, count_asked};

use logs::{Ceilings, Hear, Reason, Refusal};

// The words of a matrix of bits, a row of 8 words for each of 256 episodes.
const MATRIX: usize = 2048;

// Marks the link to episode `to` in the row of its from word, which starts at word `row`, where its pause is short enough; says whether it is and the
// link was not marked before. Neither is branched on, since the processor could not foresee it.
fn mark(seen: &mut [u32; MATRIX], row: usize, to: usize, short: bool) -> bool
    requires { row + to / 32 < length seen.old }
    ensures { SetWhere short seen.old seen.new row to × (result ≡ (short && not (eqb (bit seen.old row to) 1))) }
{
    let before = bits::bit_at(seen, row, to);
    bits::set_bit_where(seen, row, to, short);
    short && !before
}

// Counts the different links that it hears. Each is marked in `seen`, a row of bits for each episode, and counted where it was not marked before.
#[derive(Drop)]
struct Counter<'a> {
    seen: &'a mut [u32; MATRIX],
    links: usize,
}

impl<'a> Hear for Counter<'a> {
    ghost heard = { λ counter links. Counted counter.seen.now counter.links links };

    ghost takes = { λ n. n ≤ 256 };

    ghost row_of = { λ from. 8 * from };

    fn row(from: usize) -> usize
        requires { (n : ℕ) × (n ≤ 256) × (from < n) }
        ensures { result ≡ 8 * from }
    {
        8 * from
    }

    fn hear(&mut self, row: usize, to: usize, short: bool) {
        self.links += usize::from(mark(self.seen, row, to, short));
    }
}

// The link count at a caller's ceilings, in one pass over the log.
#[tactic(auto, using(crate::proofs::Counting::none_counted, crate::proofs::Counting::count_of_log, crate::proofs::Counting::short_refused, crate::proofs::Counting::head_refused))]
fn link_count_within(most: Ceilings, log: &[u32]) -> Result<usize, Refusal>
    requires { most.episodes ≤ 256 }
    ensures { count_answer result ≡ count_asked most log.now }
{
    // Asked first, as the reading asks it again, so that a log which its head refuses does not wait for the matrix.
    let [head, _, ..] = log else {
        return Err(Reason::TooShort.at(0));
    };
    logs::head_word(most, *head)?;
    let mut seen = [0; MATRIX];
    let mut counter = Counter {
        seen: &mut seen,
        links: 0,
    };
    logs::read_hearing(most, log, &mut counter)?;
    Ok(counter.links)
}

// The link count of a log, at the service's ceilings.
pub fn link_count(log: &[u32]) -> Result<usize, Refusal>
    ensures { count_answer result ≡ count_asked service log.now }
{
    link_count_within(logs::service_ceilings(), log)
}
