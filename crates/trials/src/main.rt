// Trials: a line for each call, with its answer. The trials are the lines of the file stdin, and behind them the logs of full size. The
// answers in the file stdout were worked out by hand from the questions of the scope, before the program was first run on these trials;
// where an answer is not plain, the comment at the trial, in the file stdin or in full.rt, says how.
#![tactic(auto)]

mod full;
mod lines;
mod show;

use std::io;

fn main(rt: HostRuntime) -> io::Result<()> {
    let mut buffer = [0u8; 65536];
    let count = input::read_all(&mut rt.stdin(), &mut buffer)?;
    lines::all(&rt, &buffer[..count])?;
    if count == buffer.len() {
        println!(rt; "stdin is too long")?;
    }
    full::one_group(&rt)?;
    full::last_too_large(&rt)?;
    full::pairs(&rt)?;
    full::chains(&rt)?;
    full::single_episodes(&rt)?;
    full::duets(&rt)?;
    full::chain_of_duets(&rt)?;
    full::doors(&rt)?;
    full::longest(&rt)
}
