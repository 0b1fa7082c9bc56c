// The report on a log. Log, output and work words are buffers of the caller. A `Log` passes at any ceilings, so the contracts that want few episodes
// say so; that the log which has passed is that of the words which came in, each call says of its own result.
#![tactic(auto)]

ghost use Rattle.std.specs.Prelude.{◌≡◌, List, ℕ, ◌+◌, ◌<◌, ◌≤◌, IfOk, length, replicate};
ghost use Rattle.std.specs.Borrow.{MutBor};
ghost use Rattle.paths.specs.Graph.{Graph, Loop};
ghost use Rattle.logs.specs.Answer.{given, result_answer, reason_number};
ghost use Rattle.logs.specs.Log.{service, graph_of, voices_count, PassedLog, PassesWith};
ghost use Rattle.writing.specs.Layout.{report_need};
ghost use Rattle.writing.specs.Writing.{ReportRoom};
ghost use Rattle.report.specs.Report.{work_words, lent, asked, report_needs, Left};
ghost use Rattle.report.specs.Solving.{Ready, LoopSought, Answered};

use bits::{ITEMS, NEXT, STARTS, VOICES};
use logs::{Ceilings, Log, Reason, Refusal};
use std::fmt;

// The work words that a caller lends.
pub const WORK_WORDS: usize = 16384;

// The output words that are just enough for every report: those of 200 episodes.
pub const REPORT_WORDS: usize = 10502;

// The outcome of a report call: a report with its count of words, a loop with its length, or a refusal with its number and place, in plain numbers,
// as the scope asks. The words of a report or a loop stay in the lent output.
#[derive(Clone, Copy, Debug, PartialEq, Eq)]
pub enum Outcome {
    Report(usize),
    Loop(usize),
    Refused(u32, usize),
}

impl From<Refusal> for Outcome {
    ghost use Rattle.report.specs.declared.Outcome.TheVariants.{Refused};

    ghost from_gives = { λ r o. o ≡ Refused (reason_number r.reason) r.place };

    fn from(refusal: Refusal) -> Outcome {
        Outcome::Refused(refusal.number(), refusal.place)
    }
}

impl fmt::Display for Outcome {
    ghost use Rattle.std.specs.Prelude.{Some};
    ghost use Rattle.report.specs.Shown.{outcome_shown};

    ghost output = { λ o. Some (outcome_shown o) };

    fn fmt<W: fmt::Write>(&self, f: &mut fmt::Formatter<W>) -> fmt::Result {
        match *self {
            Outcome::Report(words) => write!(f, "count {words}"),
            Outcome::Loop(length) => write!(f, "{}", Reason::Loop.at(length)),
            Outcome::Refused(number, place) => write!(f, "refused {number} at {place}"),
        }
    }
}

// The output words that a report needs on a log with `n` episodes and so many voices words.
fn report_need(n: usize, voices_words: usize) -> usize
    requires { n < 256 }
    ensures { result ≡ report_need n voices_words }
{
    let square = (n + 1) * (n + 1) / 4;
    if voices_words == 0 {
        2 + 2 * n + square
    } else {
        2 + 3 * n + 2 * square
    }
}

// Questions 11 and 12, of lent buffers with so many words, where the output needs `need`.
pub fn lent(need: usize, output: usize, work: usize) -> Result<(), Refusal>
    ensures { (a : ℕ × ℕ) → result_answer (λ _. a) result ≡ lent need output work (given a) }
{
    if output < need {
        return Err(Reason::OutputTooShort.at(need));
    }
    if work < WORK_WORDS {
        return Err(Reason::WorkTooShort.at(WORK_WORDS));
    }
    Ok(())
}

// Questions 1 to 12 and 18 to 21 of a call on a log, at a caller's ceilings, with so many words lent; the output needs the words that `need` gives for
// n, the count of to words and that of voices words.
#[tactic(auto, using(crate::proofs::Asked::asked_read, crate::proofs::Asked::asked_denied, logs::proofs::Laws::few_episodes))]
pub fn call_asked<F: FnOnce(usize, usize, usize) -> usize>(
    most: Ceilings,
    words: &[u32],
    output: usize,
    work: usize,
    need: F,
) -> Result<Log<'_>, Refusal>
    requires { (n t : ℕ) → PassesWith words.now n t → n ≤ most.episodes → F.pre need n t (voices_count words.now) }
    ensures answer { (f : ℕ → ℕ → ℕ → ℕ) → ((n t v r : ℕ) → F.post need n t v r → r ≡ f n t v)
        → result_answer (λ l. (l.episodes, l.to_words)) result ≡ asked most f words.now output work }
    ensures same { IfOk result (λ l. l.words.now ≡ words.now) }
{
    let log = Log::read(most, words)?;
    lent(
        need(log.episodes, log.to_words, log.voices_words),
        output,
        work,
    )?;
    Ok(log)
}

// Questions 1 to 12 and 18 to 21 of a report on a log, at a caller's ceilings.
fn report_asked(
    most: Ceilings,
    words: &[u32],
    output: usize,
    work: usize,
) -> Result<Log<'_>, Refusal>
    requires { most.episodes < 256 }
    ensures answer { result_answer (λ l. (l.episodes, l.to_words)) result ≡ asked most report_needs words.now output work }
    ensures same { IfOk result (λ l. l.words.now ≡ words.now) }
{
    call_asked(most, words, output, work, |n, _, v| report_need(n, v))
}

// The links, the ways and the voices of a log that passes, in work words. Those of the links and the ways and those of the tables of the search are made
// zero first; what is kept of items is written whole.
pub fn prepare(log: &[u32], n: usize, w: &mut [u32])
    requires { PassedLog log.now × ((graph_of log.now).n ≡ n) × (n < 256) × (length w.old ≡ work_words) }
    ensures { Ready (graph_of log.now) n w.new }
{
    bits::clear(&mut w[0..ITEMS]);
    bits::clear(&mut w[NEXT..VOICES]);
    let log = Log::passed(log, n);
    reach::reachability(log, w);
    log.read_voices(&mut w[VOICES..STARTS]);
}

// The answer to a log: the links, the ways and the voices are put into the work words, `answer` is called with n, the output and these, and at last all work words
// are made zero.
pub fn solve<R, F: FnOnce(usize, &mut [u32], &mut [u32]) -> R>(
    log: Log,
    out: &mut [u32],
    w: &mut [u32; WORK_WORDS],
    answer: F,
) -> R
    requires { (log.episodes < 256) × ((o v : MutBor (List ℕ)) → o.now ≡ out.old → Ready (graph_of log.words.now) log.episodes v.now
        → F.pre answer log.episodes o v) }
    ensures answered { (o v o' v' : MutBor (List ℕ)) × (o.now ≡ out.old) × Ready (graph_of log.entry.words.now) log.entry.episodes v.now
        × F.post answer log.entry.episodes o v result o' v' × (out.new ≡ o'.now) }
    ensures cleared { w.new ≡ replicate work_words 0 }
{
    prepare(log.words, log.episodes, w);
    let result = answer(log.episodes, out, w);
    bits::clear(w);
    result
}

// Writes a loop, from the links and the ways in the work words, and gives its length, where there is one.
pub fn show_loop(n: usize, out: &mut [u32], w: &mut [u32]) -> Option<usize>
    requires { (g : Graph) × Ready g n w.old × ((c : List ℕ) → Loop g c → length c + 1 ≤ length out.old) }
    ensures { (g : Graph) → Ready g n w.old
        → LoopSought g out.old w.old out.new w.new result }
{
    let v = reach::first_loop(w, n)?;
    chains::find_loop(w, n, v);
    Some(writing::write_loop(w, v, out))
}

// The report or the loop, from the links, the ways and the voices in the work words. As in `trimmed_copy`, a loop is shown first; the rest differs.
fn answer(n: usize, out: &mut [u32], w: &mut [u32]) -> Outcome
    requires { (g : Graph) × Ready g n w.old × ReportRoom g (length out.old) }
    ensures { (g : Graph) → Ready g n w.old → Answered g out.old out.new result }
{
    if let Some(length) = show_loop(n, out, w) {
        return Outcome::Loop(length);
    }
    let m = items::list(w, n);
    items::pair(w, n, m);
    chains::join(w, ITEMS, m);
    Outcome::Report(writing::write_report(w, n, m, out))
}

// The report at a caller's ceilings. As in both copies, questions and then an answer: one function that takes both would be as long as all three.
#[tactic(auto, using(crate::proofs::Calls::passed, crate::proofs::Calls::left_denied))]
fn report_within(most: Ceilings, log: &[u32], out: &mut [u32], work: &mut [u32]) -> Outcome
    requires { most.episodes < 256 }
    ensures { Left most log.now out.old work.old out.new work.new result }
{
    match report_asked(most, log, out.len(), work.len()) {
        Err(refusal) => Outcome::from(refusal),
        Ok(log) => solve(log, out, work.first_chunk_mut().unwrap(), answer),
    }
}

// The report on a log, at the service's ceilings.
pub fn report(log: &[u32], out: &mut [u32], work: &mut [u32]) -> Outcome
    ensures { Left service log.now out.old work.old out.new work.new result }
{
    report_within(logs::service_ceilings(), log, out, work)
}
