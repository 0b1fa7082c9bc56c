// The steps of one thread of a report.
#![tactic(auto)]

ghost use Rattle.std.specs.Prelude.{◌≡◌, IfErr};
ghost use Rattle.parsing.specs.Whole.{ThreadNumber, ThreadSteps, ThreadStretch};
ghost use Rattle.threads.specs.Found.{found_number, found_stretch};

use logs::{Reason, Refusal};

// Where the steps of a thread stand in a report's words: from `start` on and before `end`.
#[derive(Clone, Copy, Debug, PartialEq, Eq)]
pub struct Stretch {
    pub start: usize,
    pub end: usize,
}

// Where the steps of thread `i` stand in a report's words. Refused with 16 where they are no whole report, and with 17 where it has no
// thread `i`, each at place 0.
pub fn find_thread(report: &[u32], i: usize) -> Result<Stretch, Refusal>
    ensures number { ThreadNumber report.now i (found_number result) }
    ensures stretch { let found = found_stretch result in ThreadStretch report.now i found.start found.end }
    ensures place { IfErr result (λ refusal. refusal.place ≡ 0) }
{
    if !parsing::is_whole(report) {
        return Err(Reason::NotAReport.at(0));
    }
    let k = parsing::width(report);
    if k <= i {
        return Err(Reason::NoSuchThread.at(0));
    }
    let at = parsing::thread_at(report, i);
    let start = at + 1;
    let end = start + logs::number_of(report[at]);
    Ok(Stretch { start, end })
}

// The number with which `find_thread` refuses thread `i`, or 0 where it finds it: it is as `find_thread` says, and stays since its promise stays.
pub fn thread_number(report: &[u32], i: usize) -> u32
    ensures { ThreadNumber report.now i result }
{
    find_thread(report, i).map_or_else(|refusal| refusal.number(), |_| 0)
}

// The stretch of thread `i`, empty where `find_thread` refuses, as the scope asks.
pub fn thread_stretch(report: &[u32], i: usize) -> Stretch
    ensures { ThreadStretch report.now i result.start result.end }
{
    find_thread(report, i).unwrap_or(Stretch { start: 0, end: 0 })
}

// The steps of thread `i` as a part of the report's words, empty where `find_thread` refuses, as the scope asks.
pub fn thread_steps(report: &[u32], i: usize) -> &[u32]
    ensures { ThreadSteps report.now i result.now }
{
    let Stretch { start, end } = thread_stretch(report, i);
    &report[start..end]
}
