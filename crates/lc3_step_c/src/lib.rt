// The single step of `lc3_step`, exported to hosts in C and Rust. Its archive has the one call of the step in it and no
// loop, so that the compiler inlines all of it.
#![tactic(auto)]

ghost use Rattle.std.specs.Prelude.{◌≡◌};
ghost use Rattle.run.specs.Call.{start_of, call_of};
ghost use Rattle.answers.specs.Answer.{answer_of, reported};

use answers::Lc3Report;
use machine::Machine;

// The thin function on the lent record: the record that the step answers takes the place of the one handed in.
#[unsafe(no_mangle)]
pub extern "C" fn lc3_step(
    m: &mut Machine,
    memory: &mut [u16],
    times: &[u64],
    bytes: &[u8],
    output: &mut [u8],
) -> Lc3Report
    ensures { reported m.new result memory.new output.new
        ≡ answer_of (call_of (start_of m.old memory.old times.now bytes.now
        output.old) 1) }
{
    lc3_step::lc3_step(m, memory, times, bytes, output)
}
