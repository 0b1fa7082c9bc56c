// The trimmed copy of a log. Log, output and work words are buffers of the caller.
#![tactic(auto)]

ghost use Rattle.std.specs.Prelude.{◌<◌, length};
ghost use Rattle.paths.specs.Graph.{Graph};
ghost use Rattle.logs.specs.Log.{service};
ghost use Rattle.report.specs.Solving.{Ready};
ghost use Rattle.trimmed_copy.specs.Trimmed.{TrimLeft};
ghost use Rattle.trimmed_copy.specs.Answering.{Room, TrimAnswered};

use logs::{Ceilings, Reason, Refusal};

// The trimmed copy or the loop, from the links, the ways and the voices in the work words. As in `report`, a loop is shown first.
fn answer(n: usize, out: &mut [u32], w: &mut [u32]) -> Result<usize, Refusal>
    requires { (g : Graph) × Ready g n w.old × Room g (length out.old) }
    ensures { (g : Graph) → Ready g n w.old → Room g (length out.old)
        → TrimAnswered g out.old out.new result }
{
    if let Some(length) = report::show_loop(n, out, w) {
        return Err(Reason::Loop.at(length));
    }
    Ok(trimming::write_trimmed(w, n, out))
}

// The trimmed copy at a caller's ceilings. As in `report`, questions and then an answer.
#[tactic(auto, using(crate::proofs::TrimCalls::trim_refused, fair_copy::proofs::CopyCalls::copy_passed))]
fn trimmed_copy_within(
    most: Ceilings,
    log: &[u32],
    out: &mut [u32],
    work: &mut [u32],
) -> Result<usize, Refusal>
    requires { most.episodes < 256 }
    ensures { TrimLeft most log.now out.old work.old out.new work.new result }
{
    let log = fair_copy::copy_asked(most, log, out.len(), work.len())?;
    report::solve(log, out, work.first_chunk_mut().unwrap(), answer)
}

// The trimmed copy of a log, at the service's ceilings: the count of its words, which stay in the lent output, as those of a loop do.
pub fn trimmed_copy(log: &[u32], out: &mut [u32], work: &mut [u32]) -> Result<usize, Refusal>
    ensures { TrimLeft service log.now out.old work.old out.new work.new result }
{
    trimmed_copy_within(logs::service_ceilings(), log, out, work)
}
