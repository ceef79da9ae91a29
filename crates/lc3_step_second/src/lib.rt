// The single step by the rules of the second edition, for hosts in C and Rust: as that of `lc3_step`.
#![tactic(auto)]

ghost use Rattle.std.specs.Prelude.{◌≡◌};
ghost use Rattle.run.specs.Call.{start_of, second_call_of};
ghost use Rattle.answers.specs.Answer.{answer_of, reported};

use answers::Lc3Report;
use machine::Machine;

// The thin function on the lent record.
pub fn lc3_step_second(
    m: &mut Machine,
    memory: &mut [u16],
    times: &[u64],
    bytes: &[u8],
    output: &mut [u8],
) -> Lc3Report
    ensures { reported m.new result memory.new output.new
        ≡ answer_of (second_call_of (start_of m.old memory.old times.now
        bytes.now output.old) 1) }
{
    let a = single_step::one_step(true, *m, memory, times, bytes, output);
    *m = a.machine;
    a.report
}
