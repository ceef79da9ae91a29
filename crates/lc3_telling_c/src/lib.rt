// The calls of `lc3_telling`, exported to hosts in C and Rust.
#![tactic(auto)]

ghost use Rattle.std.specs.Prelude.{◌≡◌, List, ℕ};
ghost use Rattle.machine.specs.Edition.{third, second};
ghost use Rattle.run.specs.Call.{start_of};
ghost use Rattle.telling.specs.Told.{told_by};
ghost use Rattle.lc3_telling.specs.ToldAnswer.{told_answer};

use lc3_telling::Lc3Told;
use machine::Machine;

#[unsafe(no_mangle)]
pub extern "C" fn lc3_tell(m: Machine, memory: &[u16], times: &[u64], bytes: &[u8]) -> Lc3Told
    ensures { (output : List ℕ) → result ≡ told_answer (told_by third
        (start_of m memory.now times.now bytes.now output)) }
{
    lc3_telling::lc3_tell(m, memory, times, bytes)
}

#[unsafe(no_mangle)]
pub extern "C" fn lc3_tell_second(
    m: Machine,
    memory: &[u16],
    times: &[u64],
    bytes: &[u8],
) -> Lc3Told
    ensures { (output : List ℕ) → result ≡ told_answer (told_by second
        (start_of m memory.now times.now bytes.now output)) }
{
    lc3_telling::lc3_tell_second(m, memory, times, bytes)
}
