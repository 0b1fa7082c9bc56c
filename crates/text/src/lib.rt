// The report on a log as text, from the log's bytes: what the program prints. Text, output and work words are buffers of the caller. Each function
// that writes gives the count of the bytes that it has written to the start of its buffer.
#![tactic(auto)]

ghost use Rattle.std.specs.Prelude.{◌≡◌, ◌++◌, ◌≤◌, ◌<◌, ◌^◌, List, [], ◌∷◌, map, flat_map, codes, decimal, length, get_or, take, drop};
ghost use Rattle.paths.specs.Links.{link_count};
ghost use Rattle.logs.specs.Words.{number};
ghost use Rattle.logs.specs.Log.{service, graph_of};
ghost use Rattle.writing.specs.Layout.{apart_of, threads_of};
ghost use Rattle.report.specs.Report.{Left};
ghost use Rattle.text.specs.Text.{figure, figures, line, thread_lines, report_text, refusal_text, refusal_bytes, loop_text, outcome_text};
ghost use Rattle.text.specs.Printed.{text_bytes, TextLeft};
ghost use Rattle.text.specs.Put.{Put, Reads, Shows};

use logs::{Head, Kind, Reason, Refusal};
use report::Outcome;

// The bytes that every text fits.
pub const TEXT_BYTES: usize = 42640;

// What is printed: the outcome that it says, and how many bytes its text has.
#[derive(Clone, Copy, Debug, PartialEq, Eq)]
pub struct Printed {
    pub outcome: Outcome,
    pub bytes: usize,
}

// Writes some bytes.
fn put(text: &mut [u8], bytes: &[u8]) -> usize
    requires { length bytes.now ≤ length text.old }
    ensures { Put bytes.now text.old text.new result }
{
    text[..bytes.len()].copy_from_slice(bytes);
    bytes.len()
}

// Writes a number in decimal, without leading zeros.
fn put_decimal(text: &mut [u8], n: usize) -> usize
    requires { length (decimal n) ≤ length text.old }
    ensures { Put (decimal n) text.old text.new result }
{
    let at = if n < 10 { 0 } else { put_decimal(text, n / 10) };
    text[at] = b'0' + (n % 10) as u8;
    at + 1
}

// Writes a figure: one space, then the number.
fn put_figure(text: &mut [u8], n: usize) -> usize
    requires { length (figure n) ≤ length text.old }
    ensures { Put (figure n) text.old text.new result }
{
    let start = put(text, b" ");
    start + put_decimal(&mut text[start..], n)
}

// Writes the numbers of words as figures.
fn put_numbers(text: &mut [u8], words: &[u32]) -> usize
    requires { length (figures (map number words.now)) ≤ length text.old }
    ensures { Put (figures (map number words.now)) text.old text.new result }
{
    let mut at = 0;
    for word in words {
        at += put_figure(&mut text[at..], logs::number_of(*word));
    }
    at
}

// Writes the numbers of the apart words as figures.
fn put_apart(text: &mut [u8], words: &[u32]) -> usize
    requires { length (figures (apart_of words.now)) ≤ length text.old }
    ensures { Put (figures (apart_of words.now)) text.old text.new result }
{
    let mut at = 0;
    for word in words {
        if Kind::Apart.is_of(*word) {
            at += put_figure(&mut text[at..], logs::number_of(*word));
        }
    }
    at
}

// Writes a line: its name, the numbers of words, and a newline.
fn put_line(text: &mut [u8], name: &[u8], words: &[u32]) -> usize
    requires { length (line name.now (map number words.now)) ≤ length text.old }
    ensures { Put (line name.now (map number words.now)) text.old text.new result }
{
    let start = put(text, name);
    let last = start + put_numbers(&mut text[start..], words);
    text[last] = b'\n';
    last + 1
}

// Writes the lines of the threads, each with as many steps as its word says or as there are, which in a report are the same.
fn put_threads(text: &mut [u8], words: &[u32]) -> usize
    requires { length (thread_lines (threads_of words.now)) ≤ length text.old }
    ensures { Put (thread_lines (threads_of words.now)) text.old text.new result }
{
    let mut at = 0;
    for i in 0..words.len() {
        let word = words[i];
        if Kind::Thread.is_of(word) {
            let behind = &words[i + 1..];
            let steps = &behind[..logs::number_of(word).min(behind.len())];
            at += put_line(&mut text[at..], b"thread", steps);
        }
    }
    at
}

// Writes a line of one figure: its name, the figure, and a newline.
fn put_figure_line(text: &mut [u8], name: &[u8], n: usize) -> usize
    requires { length (line name.now (n ∷ [])) ≤ length text.old }
    ensures { Put (line name.now (n ∷ [])) text.old text.new result }
{
    let start = put(text, name);
    let end = start + put_figure(&mut text[start..], n);
    text[end] = b'\n';
    end + 1
}

// Writes the line of the apart set.
fn put_apart_line(text: &mut [u8], words: &[u32]) -> usize
    requires { length (line (codes "apart") (apart_of words.now)) ≤ length text.old }
    ensures { Put (line (codes "apart") (apart_of words.now)) text.old text.new result }
{
    let start = put(text, b"apart");
    let end = start + put_apart(&mut text[start..], words);
    text[end] = b'\n';
    end + 1
}

// Writes the lines of a report on so many episodes with so many different links.
fn put_report(text: &mut [u8], episodes: usize, links: usize, words: &[u32]) -> usize
    requires { length (report_text episodes links words.now) ≤ length text.old }
    ensures { Put (report_text episodes links words.now) text.old text.new result }
{
    let mut at = put_figure_line(text, b"episodes", episodes);
    at += put_figure_line(&mut text[at..], b"links", links);
    at += put_figure_line(&mut text[at..], b"width", parsing::width(words));
    at += put_apart_line(&mut text[at..], words);
    at + put_threads(&mut text[at..], words)
}

// Writes the line of a refusal.
fn put_refusal(text: &mut [u8], number: u32, place: usize) -> usize
    requires { refusal_bytes ≤ length text.old }
    ensures { Put (refusal_text number place) text.old text.new result }
{
    let mut at = put(text, b"refused");
    at += put_figure(&mut text[at..], number as usize);
    at += put(&mut text[at..], b" at");
    at += put_figure(&mut text[at..], place);
    text[at] = b'\n';
    at + 1
}

// Writes the lines of a loop of so many episodes, which are these steps.
fn put_loop(text: &mut [u8], count: usize, steps: &[u32]) -> usize
    requires { (refusal_bytes ≤ length text.old) × (length (loop_text count steps.now) ≤ length text.old) }
    ensures { Put (loop_text count steps.now) text.old text.new result }
{
    let start = put_refusal(text, Reason::Loop.at(count).number(), count);
    start + put_line(&mut text[start..], b"loop", steps)
}

// Writes the lines of a report on a log, of which these are the words.
fn put_report_on(text: &mut [u8], log: &[u32], words: &[u32]) -> usize
    requires { Reads log.now × (length (report_text (graph_of log.now).n (link_count (graph_of log.now)) words.now) ≤ length text.old) }
    ensures { Put (report_text (graph_of log.now).n (link_count (graph_of log.now)) words.now) text.old text.new result }
{
    let episodes = Head::from(log[0]).episodes;
    let links = link_count::link_count(log).unwrap();
    put_report(text, episodes, links, words)
}

// Writes the text of the outcome of a report call on a log, where the output holds what that call left.
fn put_outcome(text: &mut [u8], log: &[u32], out: &[u32], outcome: Outcome) -> usize
    requires { (text_bytes ≤ length text.old) × Shows log.now out.now outcome }
    ensures { Put (outcome_text (graph_of log.now) out.now outcome) text.old text.new result }
{
    match outcome {
        Outcome::Report(count) => put_report_on(text, log, &out[..count]),
        Outcome::Loop(length) => put_loop(text, length, &out[1..=length]),
        Outcome::Refused(number, place) => put_refusal(text, number, place),
    }
}

// Makes a report call on a log, and writes its text.
fn put_log(log: &[u32], text: &mut [u8], out: &mut [u32], work: &mut [u32]) -> Printed
    requires { text_bytes ≤ length text.old }
    ensures call { Left service log.now out.old work.old out.new work.new result.outcome }
    ensures text { Put (outcome_text (graph_of log.now) out.new result.outcome) text.old text.new result.bytes }
{
    let outcome = report::report(log, out, work);
    let bytes = put_outcome(text, log, out, outcome);
    Printed { outcome, bytes }
}

// The text of a log's bytes, at the start of a buffer of `TEXT_BYTES` bytes: of their refusal, or of a report call on their words.
pub fn text(
    log: &[u8],
    text: &mut [u8],
    out: &mut [u32],
    work: &mut [u32],
) -> Result<Printed, Refusal>
    ensures { TextLeft service log.now text.old out.old work.old text.new out.new work.new result }
{
    if text.len() < TEXT_BYTES {
        return Err(Reason::OutputTooShort.at(TEXT_BYTES));
    }
    let mut words = [0u32; input::MOST_BYTES / 4];
    match input::words_of(log, &mut words) {
        Ok(count) => Ok(put_log(&words[..count], text, out, work)),
        Err(refusal) => {
            let outcome = Outcome::from(refusal);
            let bytes = put_refusal(text, refusal.number(), refusal.place);
            Ok(Printed { outcome, bytes })
        }
    }
}
