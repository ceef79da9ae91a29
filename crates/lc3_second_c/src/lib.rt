// The run of `lc3_second`, exported to hosts in C and Rust. It has an archive of its own: the edition is a constant in
// each archive, so that the compiler leaves out what the other edition needs.
#![tactic(auto)]

ghost use Rattle.std.specs.Prelude.{◌≡◌};
ghost use Rattle.run.specs.Call.{start_of, second_call_of};
ghost use Rattle.answers.specs.Answer.{answer_of, answered};

use answers::Lc3Answer;
use machine::Machine;

// The run of n steps. A call that is turned down answers its number and leaves everything as it was handed in.
#[unsafe(no_mangle)]
pub extern "C" fn lc3_run_second(
    m: Machine,
    memory: &mut [u16],
    times: &[u64],
    bytes: &[u8],
    output: &mut [u8],
    n: u64,
) -> Lc3Answer
    ensures { answered result memory.new output.new
        ≡ answer_of (second_call_of (start_of m memory.old times.now bytes.now
        output.old) n) }
{
    lc3_second::lc3_run_second(m, memory, times, bytes, output, n)
}
