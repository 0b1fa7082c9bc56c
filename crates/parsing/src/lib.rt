// A report's words taken apart: whether they are a whole report, and where its threads stand.
#![tactic(auto)]

ghost use Rattle.std.specs.Prelude.{◌≡◌, ◌<◌, ◌≤◌, ◌+◌, ◌-◌, min, length, get_or, unwrap_or, IfSome};
ghost use Rattle.logs.specs.Words.{number, kind_code};
ghost use Rattle.parsing.specs.Whole.{HasThread};
ghost use Rattle.parsing.specs.Parsing.{KindTest, apart_count, ThreadEnd, ThreadsEnd, WholeTest, ThreadAt, Room};

use logs::Kind;

// Whether all words are of kind `kind`.
fn all_of_kind(words: &[u32], kind: Kind) -> bool
    ensures { KindTest words.now 0 (length words.now) (kind_code kind) result }
{
    words.iter().all(|w| kind.is_of(*w))
}

// How many apart words a report has: those of kind 5 behind the first word, up to the first of another kind. No more than one above `k` are looked for,
// since a whole report has at most `k`, and other words may have any number.
fn apart_count(report: &[u32], k: usize) -> usize
    ensures count { result ≡ min (apart_count report.now) (k + 1) }
    ensures within { result ≤ length report.now - 1 }
{
    if report.is_empty() {
        return 0;
    }
    let most = (report.len() - 1).min(k.saturating_add(1));
    for (count, w) in report[1..=most].iter().enumerate() {
        if !Kind::Apart.is_of(*w) {
            return count;
        }
    }
    most
}

// The place behind the thread that stands at `at`, if one does.
fn thread_end(report: &[u32], at: usize) -> Option<usize>
    ensures end { ThreadEnd report.now at (unwrap_or result 0) }
    ensures behind { IfSome result (λ end. at < end) }
{
    let head = *report.get(at)?;
    if !Kind::Thread.is_of(head) {
        return None;
    }
    let start = at + 1;
    let end = start + logs::number_of(head);
    let steps = report.get(start..end)?;
    if steps.is_empty() {
        return None;
    }
    all_of_kind(steps, Kind::Step).then_some(end)
}

// The place behind the `k` threads that stand from `at` on, if they do.
fn threads_end(report: &[u32], at: usize, k: usize) -> Option<usize>
    requires { (0 < at) × (at ≤ length report.now) }
    ensures { ThreadsEnd report.now at k (unwrap_or result 0) }
{
    let mut place = at;
    for _ in 0..k {
        place = thread_end(report, place)?;
    }
    Some(place)
}

// The number of the first word, which is the width in a whole report, or 0 where there is no word. No `Option`, since a call
// that could not fail still cannot; it is asked of whole reports, which have a word.
pub fn width(report: &[u32]) -> usize
    ensures { result ≡ number (get_or report.now 0 0) }
{
    report.first().map_or(0, |w| logs::number_of(*w))
}

// Whether the words are a whole report: kind 4 with k, at most k words of kind 5, then k threads, and kind F with the count of the words before it
// as the last word.
pub fn is_whole(report: &[u32]) -> bool
    ensures { WholeTest report.now result }
{
    let [head, .., last] = report else {
        return false;
    };
    if !Kind::Width.is_of(*head) {
        return false;
    }
    let k = logs::number_of(*head);
    // Each thread has words, so that a width above their count is refused before any of them is looked at.
    if report.len() < k {
        return false;
    }
    let apart = apart_count(report, k);
    if k < apart {
        return false;
    }
    let Some(end) = threads_end(report, apart + 1, k) else {
        return false;
    };
    if end + 1 != report.len() {
        return false;
    }
    Kind::End.is_of(*last) && logs::number_of(*last) == end
}

// The place of thread `i` in a whole report.
pub fn thread_at(report: &[u32], i: usize) -> usize
    requires { HasThread report.now i }
    ensures there { ThreadAt report.now i result }
    ensures room { Room report.now result }
{
    let apart = apart_count(report, width(report));
    threads_end(report, apart + 1, i).unwrap()
}
