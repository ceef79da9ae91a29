// The run for long sittings, for hosts in C and Rust. It answers and leaves what `lc3_run` does, for every call; it
// takes less time where a program stays in loops. Nothing is required of a caller.
#![tactic(auto)]

ghost use Rattle.std.specs.Prelude.{◌≡◌};
ghost use Rattle.run.specs.Call.{start_of, call_of};
ghost use Rattle.answers.specs.Answer.{answer_of, answered};

use answers::Lc3Answer;
use machine::Machine;

// The run of n steps. A call that is turned down answers its number and leaves everything as it was handed in.
pub fn lc3_run_long(
    m: Machine,
    memory: &mut [u16],
    times: &[u64],
    bytes: &[u8],
    output: &mut [u8],
    n: u64,
) -> Lc3Answer
    ensures { answered result memory.new output.new
        ≡ answer_of (call_of (start_of m memory.old times.now bytes.now
        output.old) n) }
{
    Lc3Answer::from(long_run::run(m, memory, times, bytes, output, n))
}
