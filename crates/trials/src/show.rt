// The calls that are tried, and what each answers, as a line.
ghost use Rattle.std.specs.Prelude.{◌≤◌};
ghost use Rattle.report.specs.declared.TheConstants.{REPORT_WORDS};

use logs::{Kind, Numbers, Reading, Reason, Refusal};
use report::{Outcome, REPORT_WORDS, WORK_WORDS};
use std::{fmt, io};
use text::Printed;

// The services that write to a lent output.
#[derive(Clone, Copy, PartialEq, Eq)]
pub enum Service {
    Report,
    FairCopy,
    TrimmedCopy,
}

// The start of the line of a call.
impl fmt::Display for Service {
    fn fmt<W: fmt::Write>(&self, f: &mut fmt::Formatter<W>) -> fmt::Result {
        f.write_str(match self {
            Service::Report => "report on",
            Service::FairCopy => "copy of",
            Service::TrimmedCopy => "trim of",
        })
    }
}

// So many output words and so many work words, which are lent to a call.
#[derive(Clone, Copy)]
pub struct Lent {
    pub out: usize,
    pub work: usize,
    ghost within: { (out ≤ 64) × (work ≤ 16400) },
}

// A call of a service.
#[derive(Clone, Copy)]
pub struct Call {
    pub service: Service,
    pub lent: Lent,
}

// What is asked for.
#[derive(Clone, Copy)]
pub enum Asked {
    Reading,
    Links,
    Thread(usize),
    Call(Call),
    // The text of the words' bytes.
    Text(Lent),
    // The outcome alone, with buffers that are enough for every log.
    Outcome(Service),
}

// The start of the line, before the name.
impl fmt::Display for Asked {
    fn fmt<W: fmt::Write>(&self, f: &mut fmt::Formatter<W>) -> fmt::Result {
        match self {
            Asked::Reading => Ok(()),
            Asked::Links => f.write_str("links of "),
            Asked::Thread(i) => write!(f, "thread {i} of "),
            Asked::Call(call) => write!(f, "{} ", call.service),
            Asked::Text(_) => f.write_str("text of "),
            Asked::Outcome(service) => write!(f, "{service} "),
        }
    }
}

// What is asked for of some words, with a name for the line of the answer, whose bytes need be no text.
#[derive(Clone, Copy)]
pub struct Trial<'a> {
    pub asked: Asked,
    pub name: &'a [u8],
    pub words: &'a [u32],
}

impl Trial<'_> {
    // Makes the call, and prints the line of its answer.
    pub fn make(self, rt: &impl Print) -> io::Result<()> {
        print!(rt; "{}", self.asked)?;
        rt.write_all(self.name)?;
        print!(rt; ": ")?;
        self.answer(rt)?;
        // A text ends its last line itself.
        if matches!(self.asked, Asked::Text(_)) {
            return Ok(());
        }
        println!(rt)
    }

    // Makes the call, and prints its answer. By `match`, as in `ask`.
    fn answer(self, rt: &impl Print) -> io::Result<()> {
        let words = self.words;
        match self.asked {
            Asked::Reading => reading(rt, words),
            Asked::Links => links(rt, words),
            Asked::Thread(i) => print!(rt; "{}", Thread { report: words, i }),
            Asked::Call(call) => call.make(rt, words),
            Asked::Text(lent) => text(rt, words, lent),
            Asked::Outcome(service) => outcome(rt, service, words),
        }
    }
}

// The answer of the reading.
fn reading(rt: &impl Print, words: &[u32]) -> io::Result<()> {
    match logs::read(words) {
        Ok(reading) => figures(rt, reading),
        Err(refusal) => print!(rt; "{refusal}"),
    }
}

// The figures of a reading; the count of voices words where there are some.
fn figures(rt: &impl Print, reading: Reading) -> io::Result<()> {
    let Reading {
        episodes,
        to_words,
        voices_words,
    } = reading;
    print!(rt; "episodes {episodes} to words {to_words}")?;
    if voices_words == 0 {
        return Ok(());
    }
    print!(rt; " voices words {voices_words}")
}

// The link count.
fn links(rt: &impl Print, words: &[u32]) -> io::Result<()> {
    match link_count::link_count(words) {
        Ok(links) => print!(rt; "links {links}"),
        Err(refusal) => print!(rt; "{refusal}"),
    }
}

// What each word of the buffers holds before a call.
const MARK: u32 = 0xABCD_EF01;

// How many words are not as they should be, where some are not.
#[derive(Clone, Copy)]
struct Strays(usize);

impl Strays {
    // Of words that should be `x`.
    fn among(words: &[u32], x: u32) -> Strays {
        Strays(words.iter().filter(|w| **w != x).count())
    }
}

impl fmt::Display for Strays {
    fn fmt<W: fmt::Write>(&self, f: &mut fmt::Formatter<W>) -> fmt::Result {
        if self.0 == 0 {
            return Ok(());
        }
        write!(f, "; words not as they should be: {}", self.0)
    }
}

// What asking for thread `i` gives: its episodes, or the refusal; and how many words the stretch has where it should be empty.
#[derive(Clone, Copy)]
struct Thread<'a> {
    report: &'a [u32],
    i: usize,
}

impl fmt::Display for Thread<'_> {
    fn fmt<W: fmt::Write>(&self, f: &mut fmt::Formatter<W>) -> fmt::Result {
        let steps = threads::thread_steps(self.report, self.i);
        if let Err(refusal) = threads::find_thread(self.report, self.i) {
            return write!(f, "refused {}{}", refusal.number(), Strays(steps.len()));
        }
        let kind = Kind::Step;
        write!(f, "thread{}", Numbers { kind, words: steps })
    }
}

// Each thread of a report, and what is answered behind the last.
fn write_threads(rt: &impl Print, report: &[u32]) -> io::Result<()> {
    let Some(head) = report.first() else {
        return Ok(());
    };
    for i in 0..=logs::number_of(*head) {
        print!(rt; "; {}", Thread { report, i })?;
    }
    Ok(())
}

// The words that a call wrote to the output; says so where those behind them do not hold the mark.
#[derive(Clone, Copy)]
struct Written<'a> {
    words: &'a [u32],
    behind: &'a [u32],
}

impl<'a> Written<'a> {
    // The first `count` words, or all where there are fewer.
    fn first(out: &'a [u32], count: usize) -> Written<'a> {
        let (words, behind) = out.split_at(count.min(out.len()));
        Written { words, behind }
    }
}

impl fmt::Display for Written<'_> {
    fn fmt<W: fmt::Write>(&self, f: &mut fmt::Formatter<W>) -> fmt::Result {
        f.write_str("words")?;
        for w in self.words {
            write!(f, " {w:08x}")?;
        }
        write!(f, "{}", Strays::among(self.behind, MARK))
    }
}

// Says so where the first 16,384 work words are not zero, or those behind them do not hold the mark.
fn write_cleared(rt: &impl Print, scratch: &[u32; 16400]) -> io::Result<()> {
    let (used, behind) = scratch.split_at(WORK_WORDS);
    print!(rt; "{}{}", Strays::among(used, 0), Strays::among(behind, MARK))
}

// The outcome of a copy, given as that of a report is.
fn copied(answer: Result<usize, Refusal>) -> Outcome {
    match answer {
        Ok(count) => Outcome::Report(count),
        Err(refusal) if refusal.reason == Reason::Loop => Outcome::Loop(refusal.place),
        Err(refusal) => Outcome::from(refusal),
    }
}

// The outcome of a call of the service. By `match`, since the three answer in two types.
fn ask(service: Service, log: &[u32], out: &mut [u32], work: &mut [u32]) -> Outcome {
    match service {
        Service::Report => report::report(log, out, work),
        Service::FairCopy => copied(fair_copy::fair_copy(log, out, work)),
        Service::TrimmedCopy => copied(trimmed_copy::trimmed_copy(log, out, work)),
    }
}

// The outcome of a call, what it wrote, and how many words of the buffers are not as they should be; of a report, each thread too.
fn write_outcome(
    rt: &impl Print,
    service: Service,
    outcome: Outcome,
    out: &[u32; 64],
    scratch: &[u32; 16400],
) -> io::Result<()> {
    match outcome {
        Outcome::Report(count) => {
            let written = Written::first(out, count);
            print!(rt; "{written}")?;
            write_cleared(rt, scratch)?;
            if service == Service::Report {
                write_threads(rt, written.words)?;
            }
            Ok(())
        }
        Outcome::Loop(length) => {
            let written = Written::first(out, length.saturating_add(1));
            print!(rt; "{outcome}, {written}")?;
            write_cleared(rt, scratch)
        }
        Outcome::Refused(..) => {
            let outs = Strays::among(out, MARK);
            let works = Strays::among(scratch, MARK);
            print!(rt; "{outcome}{outs}{works}")
        }
    }
}

impl Call {
    // What the call answers and leaves, of 64 output words and 16,400 work words. Before it all hold the mark.
    fn make(self, rt: &impl Print, log: &[u32]) -> io::Result<()> {
        let service = self.service;
        let mut out = [MARK; 64];
        let mut scratch = [MARK; 16400];
        let outcome = ask(
            service,
            log,
            &mut out[..self.lent.out],
            &mut scratch[..self.lent.work],
        );
        write_outcome(rt, service, outcome, &out, &scratch)
    }
}

// The bytes of words, the lowest first, in `room`; none where they are more.
fn bytes_of<'a>(words: &[u32], room: &'a mut [u8]) -> Option<&'a [u8]> {
    let bytes = room.get_mut(..words.len().saturating_mul(4))?;
    for (byte, value) in bytes
        .iter_mut()
        .zip(words.iter().flat_map(|w| w.to_le_bytes()))
    {
        *byte = value;
    }
    Some(bytes)
}

// The outcome of a text call and the count of its bytes, then the text; says so where the bytes behind it do not hold the mark.
fn text(rt: &impl Print, words: &[u32], lent: Lent) -> io::Result<()> {
    let mut room = [0u8; 256];
    let log = bytes_of(words, &mut room).unwrap_or(&[]);
    let mut text = [b'#'; text::TEXT_BYTES];
    let mut out = [MARK; 64];
    let mut work = [MARK; 16400];
    match text::text(log, &mut text, &mut out[..lent.out], &mut work[..lent.work]) {
        Ok(Printed { outcome, bytes }) => {
            let (lines, behind) = text.split_at(bytes.min(text::TEXT_BYTES));
            let strays = Strays(behind.iter().filter(|b| **b != b'#').count());
            println!(rt; "{outcome}, {bytes} bytes{strays}")?;
            rt.write_all(lines)
        }
        Err(refusal) => println!(rt; "{refusal}"),
    }
}

// The output words that are just enough for a copy: those of the longest log that passes.
const COPY_WORDS: usize = input::MOST_BYTES / 4;

// The output words that are just enough for every log, by service.
fn enough(service: Service) -> usize
    ensures { result ≤ REPORT_WORDS }
{
    match service {
        Service::Report => REPORT_WORDS,
        Service::FairCopy | Service::TrimmedCopy => COPY_WORDS,
    }
}

// The outcome of a call alone, of a log of any size.
fn outcome(rt: &impl Print, service: Service, log: &[u32]) -> io::Result<()> {
    let mut out = [MARK; REPORT_WORDS];
    let mut work = [MARK; WORK_WORDS];
    let outcome = ask(service, log, &mut out[..enough(service)], &mut work);
    print!(rt; "{outcome}")
}
