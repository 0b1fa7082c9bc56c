// Prints the report on the log whose bytes stand on standard input, or its refusal.
#![tactic(auto)]

use report::Outcome;
use std::io::Write;
use std::process::ExitCode;

fn main(rt: HostRuntime) -> ExitCode {
    // One byte more than the longest log that passes: a full buffer is refused, whatever stands behind it.
    let mut bytes = [0u8; input::MOST_BYTES + 1];
    // These come before the read, since locals that come behind a call are cleared twice.
    let mut text = [0u8; text::TEXT_BYTES];
    let mut out = [0u32; report::REPORT_WORDS];
    let mut work = [0u32; report::WORK_WORDS];
    let Ok(count) = input::read_all(&mut rt.stdin(), &mut bytes) else {
        return failed(&rt, "standard input cannot be read");
    };
    let printed = text::text(&bytes[..count], &mut text, &mut out, &mut work).unwrap();
    match rt.stdout().write_all(&text[..printed.bytes]) {
        Ok(()) => status(printed.outcome),
        Err(_) => failed(&rt, "standard output cannot be written"),
    }
}

// 0 after a report, 1 after a refusal.
fn status(outcome: Outcome) -> ExitCode {
    match outcome {
        Outcome::Report(_) => ExitCode::SUCCESS,
        Outcome::Loop(_) | Outcome::Refused(..) => ExitCode::from(1),
    }
}

// Says on standard error what failed, if that can be written.
fn failed(rt: &impl Eprint, what: &str) -> ExitCode {
    let _ = eprintln!(rt; "{what}");
    ExitCode::from(2)
}
