// The run (M12, M13) for hosts in C and Rust. Nothing is required of a caller.
#![tactic(auto)]

ghost use Rattle.std.specs.Prelude.{◌≡◌};
ghost use Rattle.run.specs.Call.{start_of, call_of};
ghost use Rattle.answers.specs.Answer.{answer_of, answered};

use answers::{Lc3Answer, refused};
use machine::Machine;
use run::Refusal;
use run_call::run_accepted;

// The run of n steps. A call that is turned down answers its number and leaves everything as it was handed in.
pub fn lc3_run(
    m: Machine,
    memory: &mut [u16],
    times: &[u64],
    bytes: &[u8],
    output: &mut [u8],
    n: u64,
) -> Lc3Answer
    ensures { answered result memory.new output.new
        ≡ answer_of (call_of (start_of m memory.old times.now bytes.now
        output.old) n) }
{
    let Some(whole) = memory.as_mut_array() else {
        return refused(m, Refusal::MemorySize);
    };
    match refusals::admission(m, whole, times, bytes, n) {
        Ok(()) => Lc3Answer::from(run_accepted(false, m, whole, times, bytes, output, n)),
        Err(refusal) => refused(m, refusal),
    }
}
