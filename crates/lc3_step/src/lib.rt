// The single step (M3.5) for hosts in C and Rust, on a record that the host keeps: the by-value step of `single_step`,
// answered as a run is. Nothing is required of a caller.
#![tactic(auto)]

ghost use Rattle.std.specs.Prelude.{◌≡◌};
ghost use Rattle.run.specs.Call.{start_of, call_of};
ghost use Rattle.answers.specs.Answer.{answer_of, reported};

use answers::Lc3Report;
use machine::Machine;

// The thin function on the lent record: the record that the step answers takes the place of the one handed in.
pub fn lc3_step(
    m: &mut Machine,
    memory: &mut [u16],
    times: &[u64],
    bytes: &[u8],
    output: &mut [u8],
) -> Lc3Report
    ensures { reported m.new result memory.new output.new
        ≡ answer_of (call_of (start_of m.old memory.old times.now bytes.now
        output.old) 1) }
{
    let a = single_step::one_step(false, *m, memory, times, bytes, output);
    *m = a.machine;
    a.report
}
