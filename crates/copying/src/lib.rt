// The fair copy of a log: behind the head the voices words are written, from a table of the voices, and then the groups, block by block: the links
// from 64 episodes are marked in one pass over the log, in a row of 256 words for each episode, and the marked ones are written, row by row, to a lent
// output, since nothing is allocated; what is written is counted. A `Log` passes at any ceilings, so the contracts that want few episodes say so.
#![tactic(auto)]

ghost use Rattle.std.specs.Prelude.{◌≡◌, ◌≢◌, not, List, ℕ, ◌+◌, ◌/◌, ◌%◌, ◌^◌, ◌<◌, ◌≤◌, eqb, length, get_or, replicate, set};
ghost use Rattle.logs.specs.Words.{word, head_of, Small};
ghost use Rattle.logs.specs.Content.{heard_graph, least_pause};
ghost use Rattle.logs.specs.Log.{content_of, graph_of, PassedLog};
ghost use Rattle.logs.specs.Groups.{EpisodesBelow};
ghost use Rattle.writing.specs.Layout.{BeginsWith};
ghost use Rattle.copying.specs.FairCopy.{linked_to, group, groups, voices_words, copy_words, copy_length, fair_words};
ghost use Rattle.copying.specs.Calls.{WritesLinks};
ghost use Rattle.paths.specs.Graph.{Graph};
ghost use Rattle.copying.specs.Copying.{block_words, BlockMarks, Lowered, GroupTaken, marked, pause_at, group_length, LinksWritten, GroupWritten, GroupsWritten, said, VoicesWritten};

use logs::{Group, Head, Kind, Log, ToWord, VoicesWord};

// The words of a block: as many as the work words of a call (`report::WORK_WORDS`), which are lent for it.
pub const BLOCK: usize = 16384;

// Lowers the mark at `at` to the pause plus one, where there is none yet or a higher one. A word has no room for a flag; the mark is compared here and
// not taken apart, so `checked_sub(1)`, as in `write_links`, would be no plainer.
fn lower(w: &mut [u32], at: usize, pause: u32)
    requires { (at < length w.old) × (pause < 2 ^ 12) }
    ensures { Lowered at pause w.old w.new }
{
    let mark = w[at];
    if mark == 0 || pause + 1 < mark {
        w[at] = pause + 1;
    }
}

// Marks the links of a group, in the row of its episode in its block. As in `reach`, but for what is done at each to word.
fn mark_group(group: Group, w: &mut [u32; BLOCK])
    requires { EpisodesBelow 256 group.to_words.now }
    ensures { GroupTaken (group.entry.from / 64) group.entry.from group.entry.to_words.now w.old w.new }
{
    let row = group.from % 64 * 256;
    for word in group.to_words {
        let to = ToWord::from(*word);
        lower(w, row + to.episode, to.pause);
    }
}

// Marks the links of a log from the episodes of a block, in words that are zero.
fn mark_block(log: Log, block: usize, w: &mut [u32; BLOCK])
    requires { (log.episodes ≤ 256) × (w.old ≡ replicate (length w.old) 0) }
    ensures { BlockMarks block (content_of log.entry.words.now) w.new }
{
    for group in log.groups() {
        if group.from / 64 == block {
            mark_group(group, w);
        }
    }
}

// The marks of the block that `a` is in, made where it is the first episode there.
fn block_of(log: Log, a: usize, w: &mut [u32; BLOCK])
    requires { (log.episodes ≤ 256) × (a % 64 ≢ 0 → BlockMarks (a / 64) (content_of log.words.now) w.old) }
    ensures { BlockMarks (a / 64) (content_of log.entry.words.now) w.new }
{
    if a % 64 == 0 {
        bits::clear(w);
        mark_block(log, a / 64, w);
    }
}

// Writes the to words of a group behind its first word, from the row of its episode, and gives their count.
fn write_links(row: &[u32], out: &mut [u32]) -> usize
    requires { (length (marked row.now (length row.now)) < length out.old) × (length row.now < 2 ^ 16)
        × ((b : ℕ) → b < length row.now → get_or row.now b 0 ≤ 2 ^ 12) }
    ensures { LinksWritten (pause_at row.now) (marked row.now (length row.now)) out.old out.new result }
{
    let mut links = 0;
    for (b, mark) in row.iter().enumerate() {
        if let Some(pause) = mark.checked_sub(1) {
            links += 1;
            let to = ToWord { episode: b, pause };
            out[links] = to.word();
        }
    }
    links
}

// Puts the from word of `a` before the to words of its links, where it has some.
fn put_from(a: usize, links: usize, out: &mut [u32])
    requires { Small a × (0 < length out.old) }
    ensures { (pause : ℕ → ℕ) (bs o : List ℕ) → LinksWritten pause bs o out.old links → GroupWritten a pause bs o out.new links }
{
    if links != 0 {
        out[0] = Kind::From.word(a);
    }
}

// How many words a group of so many links has.
pub fn group_words(links: usize) -> usize
    requires { links < 2 ^ 28 }
    ensures { result ≡ group_length links }
{
    if links == 0 { 0 } else { links + 1 }
}

// How many words have been written, and the links among them.
#[derive(Clone, Copy, Debug, PartialEq, Eq)]
pub struct Written {
    pub words: usize,
    pub links: usize,
}

// Writes the groups of all episodes behind the first `start` words, the links of each by a call of `write_row`.
fn write_groups<F: FnMut(usize, &mut [u32]) -> usize>(
    n: usize,
    start: usize,
    out: &mut [u32],
    mut write_row: F,
) -> Written
    requires { (pause : ℕ → ℕ → ℕ) × (g : Graph) × WritesLinks F.pre F.step pause g write_row × (g.n ≡ n) × Small n
        × Small (length g.links) × (start + length (groups pause g g.n) < length out.old) }
    ensures { (pause : ℕ → ℕ → ℕ) (g : Graph) → WritesLinks F.pre F.step pause g write_row → g.n ≡ n
        → start + length (groups pause g g.n) < length out.old → GroupsWritten pause g start out.old out.new result.words result.links }
{
    let mut words = start;
    let mut links = 0;
    for a in 0..n {
        let group = &mut out[words..];
        let more = write_row(a, group);
        put_from(a, more, group);
        words += group_words(more);
        links += more;
    }
    Written { words, links }
}

// Writes the head before the voices words and groups, and the end behind them.
fn write_ends(head: Head, words: usize, links: usize, out: &mut [u32])
    requires { (head.version < 2 ^ 4) × (head.episodes < 2 ^ 24) × Small links × (words < length out.old) }
    ensures { out.new ≡ set (set out.old 0 (head_of head.version head.episodes)) words (word 15 links) }
{
    out[0] = head.word();
    out[words] = Kind::End.word(links);
}

// Whether a copy has a voices word for an episode with so many voices.
fn has_word(voices: u32) -> bool
    ensures { result ≡ not (eqb voices 1) }
{
    voices != 1
}

// Writes the voices words of the episodes that have other voices than one behind the first word, from a table of the voices, and gives the place
// behind them.
pub fn write_voices(voices: &[u32], out: &mut [u32]) -> usize
    requires { (length voices.now ≤ 2 ^ 16) × ((v : ℕ) → v < length voices.now → get_or voices.now v 0 < 2 ^ 12)
        × (length (voices_words (said voices.now) (length voices.now)) < length out.old) }
    ensures { VoicesWritten (said voices.now) (length voices.now) out.old out.new result }
{
    let mut count = 0;
    for (v, voices) in voices.iter().enumerate() {
        if has_word(*voices) {
            count += 1;
            let mark = VoicesWord {
                episode: v,
                voices: *voices,
            };
            out[count] = mark.word();
        }
    }
    count + 1
}

// Writes a copy with this head, behind whose voices words `start` is, the links of each episode by a call of `write_row`, and gives its count of words;
// `o` there is the output before the voices words were written.
pub fn write_by_rows<F: FnMut(usize, &mut [u32]) -> usize>(
    head: Head,
    start: usize,
    out: &mut [u32],
    write_row: F,
) -> usize
    requires { (pause : ℕ → ℕ → ℕ) × (g : Graph) × (o : List ℕ) × WritesLinks F.pre F.step pause g write_row × (g.n ≡ head.episodes)
        × VoicesWritten g.voices g.n o out.old start × (head.version < 2 ^ 4) × (head.episodes < 2 ^ 24) × Small (length g.links)
        × (copy_length pause g ≤ length o) }
    ensures { (pause : ℕ → ℕ → ℕ) (g : Graph) (o : List ℕ) → WritesLinks F.pre F.step pause g write_row → g.n ≡ head.episodes
        → VoicesWritten g.voices g.n o out.old start → copy_length pause g ≤ length o
        → (result ≡ length (copy_words head.version pause g)) × BeginsWith (copy_words head.version pause g) o out.new }
{
    let groups = write_groups(head.episodes, start, out, write_row);
    write_ends(head, groups.words, groups.links, out);
    groups.words + 1
}

// Writes the fair copy of a log, and gives its count of words.
fn write_passed(log: Log, out: &mut [u32], w: &mut [u32; BLOCK]) -> usize
    requires { (log.episodes ≤ 256) × (length (fair_words (content_of log.words.now)) ≤ length out.old) }
    ensures { (result ≡ length (fair_words (content_of log.entry.words.now)))
        × BeginsWith (fair_words (content_of log.entry.words.now)) out.old out.new }
{
    log.read_voices(w);
    let start = write_voices(&w[..log.episodes], out);
    let head = Head {
        version: log.version(),
        episodes: log.episodes,
    };
    write_by_rows(
        head,
        start,
        out,
        |a, rest|
            requires { (log.episodes ≤ 256) × (a < log.episodes) × (a % 64 ≢ 0 → BlockMarks (a / 64) (content_of log.words.now) w.now)
                × (length (group a (least_pause (content_of log.words.now) a) (linked_to a (heard_graph (content_of log.words.now)).links log.episodes))
                < length rest.old) }
            ensures { BlockMarks (a / 64) (content_of log.entry.words.now) w.exit.now
                × LinksWritten (least_pause (content_of log.entry.words.now) a)
                (linked_to a (heard_graph (content_of log.entry.words.now)).links log.entry.episodes) rest.old rest.new result }
        {
            block_of(log, a, w);
            let marks = &*w;
            let row = a % 64 * 256;
            write_links(&marks[row..row + log.episodes], rest)
        },
    )
}

// Writes the fair copy of a log that passes with `n` episodes, and gives its count of words.
pub fn write_copy(log: &[u32], n: usize, out: &mut [u32], w: &mut [u32]) -> usize
    requires { PassedLog log.now × ((graph_of log.now).n ≡ n) × (length w.old ≡ block_words)
        × (length (fair_words (content_of log.now)) ≤ length out.old) }
    ensures { (result ≡ length (fair_words (content_of log.now)))
        × BeginsWith (fair_words (content_of log.now)) out.old out.new }
{
    write_passed(Log::passed(log, n), out, w.first_chunk_mut().unwrap())
}
