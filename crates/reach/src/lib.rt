// Who has a way to whom: the links of a log that count as a matrix of bits, and its closure. The steps take the words of both matrices alone; what is
// public takes longer words too, so its contract says that these are within them. The bound of a number stands where the number is a parameter by
// itself.
#![tactic(auto)]

ghost use Rattle.std.specs.Prelude.{◌+◌, ◌*◌, ◌/◌, ◌<◌, ◌≤◌, IfSome, length};
ghost use Rattle.logs.specs.Content.{short_enough};
ghost use Rattle.logs.specs.Groups.{EpisodesBelow};
ghost use Rattle.bits.specs.Bits.{SetWhere};
ghost use Rattle.bits.specs.Work.{items_at};
ghost use Rattle.rising.specs.Rising.{NoWays};
ghost use Rattle.reach.specs.Reach.{NoneMarked, GroupMarked, LinksMarked, LinksCopied, HoldsWays, RowClosed, RoundClosed, Closed, WaysReached};
ghost use Rattle.reach.specs.Reach.{ReachedLog, FirstLoop, episode_or};

use bits::{ITEMS, LINKS, WAYS};
use logs::{Group, Log, ToWord};

// Marks the link of a to word in the row that starts at word `row`, where its pause lets it count in this version. In version 0 its pause is not looked
// at, and in version 1 it is not branched on, since the processor could not foresee it.
fn mark_link(version: u32, to: ToWord, row: usize, w: &mut [u32; ITEMS])
    requires { row + to.episode / 32 < items_at }
    ensures { SetWhere (short_enough version to.pause) w.old w.new row to.episode }
{
    if version == 0 {
        bits::set_bit(w, row, to.episode);
    } else {
        bits::set_bit_where(w, row, to.episode, logs::short_enough(version, to.pause));
    }
}

// Marks the links of a group in the row of its episode, where their pauses let them count in this version. As in `copying`, but for what is done at
// each to word: a trait for that would be longer than both.
fn mark_group(group: Group, version: u32, w: &mut [u32; ITEMS])
    requires { (group.from < 256) × EpisodesBelow 256 group.to_words.now }
    ensures { GroupMarked version group.entry.from group.entry.to_words.now w.old w.new }
{
    let row = LINKS + 8 * group.from;
    for word in group.to_words {
        mark_link(version, ToWord::from(*word), row, w);
    }
}

// Marks the links of a log that count, group by group.
fn mark_links(log: Log, w: &mut [u32; ITEMS])
    requires { (log.episodes ≤ 256) × NoneMarked w.old }
    ensures { LinksMarked log.entry.words.now w.old w.new }
{
    let version = log.version();
    for group in log.groups() {
        mark_group(group, version, w);
    }
}

// Copies the links to where the ways are to stand.
fn copy_links(w: &mut [u32; ITEMS])
    ensures { LinksCopied w.old w.new }
{
    bits::copy_matrix(w, LINKS, WAYS);
}

// Where `a` has a way to `k`, gives it the ways of `k`, which are `ways`.
fn close_row(w: &mut [u32; ITEMS], a: usize, k: usize, ways: &[u32; 8])
    requires { (a < 256) × (k < 256) × HoldsWays w.old k ways.now }
    ensures { RowClosed w.old w.new a k }
{
    let row = WAYS + 8 * a;
    if bits::bit_at(w, row, k) {
        bits::join_from(ways, w, row);
    }
}

// One round of Warshall's closure: ways by way of `k`, whose ways are the same throughout.
fn close_round(w: &mut [u32; ITEMS], n: usize, k: usize)
    requires { (n ≤ 256) × (k < n) }
    ensures { RoundClosed w.old w.new n k }
{
    let ways = bits::row_at(w, WAYS + 8 * k);
    for a in 0..n {
        close_row(w, a, k, &ways);
    }
}

// The closure of the links, which stand where the ways are to stand.
fn close(w: &mut [u32; ITEMS], n: usize)
    requires { n ≤ 256 }
    ensures { Closed w.old w.new n }
{
    for k in 0..n {
        close_round(w, n, k);
    }
}

// The ways of the links.
fn reach_ways(w: &mut [u32; ITEMS], n: usize)
    requires { (n ≤ 256) × NoWays w.old }
    ensures { WaysReached w.old w.new n }
{
    if rising::rises(w, n) {
        rising::reach_rising(w, n);
        return;
    }
    copy_links(w);
    close(w, n);
}

// The links and the ways of a log, in words that are zero.
pub fn reachability(log: Log, w: &mut [u32])
    requires { (log.episodes ≤ 256) × (items_at ≤ length w.old) × NoneMarked w.old }
    ensures { ReachedLog log.entry.words.now w.old w.new }
{
    let front = w.first_chunk_mut::<ITEMS>().unwrap();
    mark_links(log, front);
    reach_ways(front, log.episodes);
}

// The first episode that has a way to itself.
pub fn first_loop(w: &[u32], n: usize) -> Option<usize>
    requires { (items_at ≤ length w.now) × (n ≤ 256) }
    ensures first { FirstLoop w.now n (episode_or n result) }
    ensures below { IfSome result (λ v. v < n) }
{
    (0..n).find(|v| bits::bit_at(w, WAYS + 8 * *v, *v))
}
