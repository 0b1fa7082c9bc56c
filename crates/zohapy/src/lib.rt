// The seven services for C and Rust: exported functions, which answer in plain numbers.
#![tactic(auto)]

ghost use Rattle.std.specs.Prelude.{◌≡◌, ◌-◌};
ghost use Rattle.logs.specs.Answer.{result_answer, read_answer};
ghost use Rattle.logs.specs.Log.{service, questions};
ghost use Rattle.link_count.specs.Counted.{count_asked};
ghost use Rattle.report.specs.Report.{outcome_answer};
ghost use Rattle.threads.specs.Found.{found_number, found_stretch};
ghost use Rattle.zohapy.specs.Exported.{read_numbers, numbers, printed_numbers, Reports, Copies, Trims, Thread, Texts};

use logs::{Reading, Reason, Refusal};
use report::Outcome;
use text::Printed;
use threads::Stretch;

// A reading: number 0 with n and the count of to words, or a refusal's number and place. What is not given is 0.
#[repr(C)]
#[derive(Clone, Copy)]
pub struct ReadAnswer {
    pub number: u32,
    pub place: usize,
    pub episodes: usize,
    pub links: usize,
}

// A report, a loop, a copy or a link count: number 0 with the count of words or of links, or a refusal's number and place.
#[repr(C)]
#[derive(Clone, Copy)]
pub struct Answer {
    pub number: u32,
    pub value: usize,
}

// The steps of a thread: number 0 with the place of the first and how many there are, or a refusal's number, 0 and 0.
#[repr(C)]
#[derive(Clone, Copy)]
pub struct ThreadAnswer {
    pub number: u32,
    pub start: usize,
    pub length: usize,
}

// A text: the numbers of its report, as `Answer` has them, and how many bytes it has. 0 where the text buffer is too short.
#[repr(C)]
#[derive(Clone, Copy)]
pub struct TextAnswer {
    pub number: u32,
    pub value: usize,
    pub bytes: usize,
}

impl From<Result<Reading, Refusal>> for ReadAnswer {
    ghost from_gives = { λ r a. read_numbers (read_answer r) ≡ (a.number, a.place, a.episodes, a.links) };

    fn from(read: Result<Reading, Refusal>) -> ReadAnswer {
        match read {
            Ok(reading) => ReadAnswer {
                number: 0,
                place: 0,
                episodes: reading.episodes,
                links: reading.to_words,
            },
            Err(refusal) => ReadAnswer {
                number: refusal.number(),
                place: refusal.place,
                episodes: 0,
                links: 0,
            },
        }
    }
}

impl From<Result<usize, Refusal>> for Answer {
    ghost from_gives = { λ r a. numbers (result_answer (λ c. c) r) ≡ (a.number, a.value) };

    fn from(counted: Result<usize, Refusal>) -> Answer {
        match counted {
            Ok(count) => Answer {
                number: 0,
                value: count,
            },
            Err(refusal) => Answer {
                number: refusal.number(),
                value: refusal.place,
            },
        }
    }
}

impl From<Outcome> for Answer {
    ghost from_gives = { λ o a. numbers (outcome_answer o) ≡ (a.number, a.value) };

    fn from(outcome: Outcome) -> Answer {
        match outcome {
            Outcome::Report(words) => Answer {
                number: 0,
                value: words,
            },
            Outcome::Loop(length) => Answer {
                number: Reason::Loop.at(length).number(),
                value: length,
            },
            Outcome::Refused(number, place) => Answer {
                number,
                value: place,
            },
        }
    }
}

impl From<Result<Stretch, Refusal>> for ThreadAnswer {
    ghost from_gives = { λ r a. let s = found_stretch r in (a.number ≡ found_number r) × (a.start ≡ s.start) × (a.length ≡ s.end - s.start) };

    fn from(found: Result<Stretch, Refusal>) -> ThreadAnswer {
        match found {
            Ok(stretch) => ThreadAnswer {
                number: 0,
                start: stretch.start,
                length: stretch.end.saturating_sub(stretch.start),
            },
            Err(refusal) => ThreadAnswer {
                number: refusal.number(),
                start: 0,
                length: 0,
            },
        }
    }
}

impl From<Result<Printed, Refusal>> for TextAnswer {
    ghost from_gives = { λ r a. printed_numbers r ≡ (a.number, a.value, a.bytes) };

    fn from(printed: Result<Printed, Refusal>) -> TextAnswer {
        let (answer, bytes) = match printed {
            Ok(printed) => (Answer::from(printed.outcome), printed.bytes),
            Err(refusal) => (Answer::from(Err(refusal)), 0),
        };
        TextAnswer {
            number: answer.number,
            value: answer.value,
            bytes,
        }
    }
}

// Questions 1 to 10, and 18 to 21.
#[unsafe(no_mangle)]
pub extern "C" fn zohapy_read(log: &[u32]) -> ReadAnswer
    ensures { read_numbers (questions service log.now) ≡ (result.number, result.place, result.episodes, result.links) }
{
    ReadAnswer::from(logs::read(log))
}

// The number of different links of a log that count.
#[unsafe(no_mangle)]
pub extern "C" fn zohapy_links(log: &[u32]) -> Answer
    ensures { numbers (count_asked service log.now) ≡ (result.number, result.value) }
{
    Answer::from(link_count::link_count(log))
}

// The report on a log. A loop is refusal 13 at its length.
#[unsafe(no_mangle)]
pub extern "C" fn zohapy_report(log: &[u32], out: &mut [u32], work: &mut [u32]) -> Answer
    ensures { Reports log.now out.old work.old out.new work.new result.number result.value }
{
    Answer::from(report::report(log, out, work))
}

// The fair copy of a log.
#[unsafe(no_mangle)]
pub extern "C" fn zohapy_fair_copy(log: &[u32], out: &mut [u32], work: &mut [u32]) -> Answer
    ensures { Copies log.now out.old work.old out.new work.new result.number result.value }
{
    Answer::from(fair_copy::fair_copy(log, out, work))
}

// The trimmed copy of a log. A loop is refusal 13 at its length.
#[unsafe(no_mangle)]
pub extern "C" fn zohapy_trimmed_copy(log: &[u32], out: &mut [u32], work: &mut [u32]) -> Answer
    ensures { Trims log.now out.old work.old out.new work.new result.number result.value }
{
    Answer::from(trimmed_copy::trimmed_copy(log, out, work))
}

// The steps of thread `i` of a report.
#[unsafe(no_mangle)]
pub extern "C" fn zohapy_thread(report: &[u32], i: usize) -> ThreadAnswer
    ensures { Thread report.now i result.number result.start result.length }
{
    ThreadAnswer::from(threads::find_thread(report, i))
}

// The text of a log's bytes: of their report, their loop or their refusal.
#[unsafe(no_mangle)]
pub extern "C" fn zohapy_text(
    log: &[u8],
    text: &mut [u8],
    out: &mut [u32],
    work: &mut [u32],
) -> TextAnswer
    ensures { Texts log.now text.old out.old work.old text.new out.new work.new result.number result.value result.bytes }
{
    TextAnswer::from(text::text(log, text, out, work))
}
