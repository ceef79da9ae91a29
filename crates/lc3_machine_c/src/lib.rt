// The run of `lc3_machine`, exported to hosts in C and Rust.
#![tactic(auto)]

ghost use Rattle.std.specs.Prelude.{◌≡◌};
ghost use Rattle.run.specs.Call.{start_of, call_of};
ghost use Rattle.answers.specs.Answer.{answer_of, answered};

use answers::Lc3Answer;
use machine::Machine;

// The run of n steps. A call that is turned down answers its number and leaves everything as it was handed in.
#[unsafe(no_mangle)]
pub extern "C" fn lc3_run(
    m: Machine,
    memory: &mut [u16],
    times: &[u64],
    bytes: &[u8],
    output: &mut [u8],
    n: u64,
) -> Lc3Answer
    ensures { answered result memory.new output.new
        ≡ answer_of (call_of (start_of m memory.old times.now bytes.now
        output.old) n) }
{
    lc3_machine::lc3_run(m, memory, times, bytes, output, n)
}
