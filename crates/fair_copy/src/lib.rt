// The fair copy of a log. Log, output and work words are buffers of the caller.
#![tactic(auto)]

ghost use Rattle.std.specs.Prelude.{◌≡◌, ◌≤◌, IfOk, length, replicate};
ghost use Rattle.logs.specs.Answer.{result_answer};
ghost use Rattle.logs.specs.Log.{service, content_of};
ghost use Rattle.writing.specs.Layout.{BeginsWith};
ghost use Rattle.copying.specs.FairCopy.{fair_words};
ghost use Rattle.report.specs.Report.{work_words};
ghost use Rattle.fair_copy.specs.Copied.{copy_asked, CopyLeft};

use logs::{Ceilings, Log, Refusal};
use report::WORK_WORDS;

// The fair copy of a log, in work words of which none is left as it was.
fn copy(log: Log, out: &mut [u32], work: &mut [u32; WORK_WORDS]) -> usize
    requires { (log.episodes ≤ 256) × (length (fair_words (content_of log.words.now)) ≤ length out.old) }
    ensures { (result ≡ length (fair_words (content_of log.entry.words.now)))
        × BeginsWith (fair_words (content_of log.entry.words.now)) out.old out.new
        × (work.new ≡ replicate work_words 0) }
{
    let words = copying::write_copy(log.words, log.episodes, out, work);
    bits::clear(work);
    words
}

// Questions 1 to 12 and 18 to 21 of a copy of a log, at a caller's ceilings, with so many words lent.
#[tactic(auto, using(logs::proofs::Laws::words_small, logs::proofs::Laws::voices_words_small))]
pub fn copy_asked(
    most: Ceilings,
    words: &[u32],
    output: usize,
    work: usize,
) -> Result<Log<'_>, Refusal>
    ensures answer { result_answer (λ l. (l.episodes, l.to_words)) result ≡ copy_asked most words.now output work }
    ensures same { IfOk result (λ l. l.words.now ≡ words.now) }
{
    report::call_asked(most, words, output, work, |_, t, v| 2 + 2 * t + v)
}

// The fair copy at a caller's ceilings. As in `report`, questions and then an answer.
#[tactic(auto, using(crate::proofs::CopyCalls::copy_refused, crate::proofs::CopyCalls::copy_passed))]
fn fair_copy_within(
    most: Ceilings,
    log: &[u32],
    out: &mut [u32],
    work: &mut [u32],
) -> Result<usize, Refusal>
    requires { most.episodes ≤ 256 }
    ensures { CopyLeft most log.now out.old work.old out.new work.new result }
{
    let log = copy_asked(most, log, out.len(), work.len())?;
    Ok(copy(log, out, work.first_chunk_mut().unwrap()))
}

// The fair copy of a log, at the service's ceilings: the count of its words, which stay in the lent output.
pub fn fair_copy(log: &[u32], out: &mut [u32], work: &mut [u32]) -> Result<usize, Refusal>
    ensures { CopyLeft service log.now out.old work.old out.new work.new result }
{
    fair_copy_within(logs::service_ceilings(), log, out, work)
}
