// The ready-made monitor for hosts in C and Rust. Every call accepts every argument; the refusals are those of
// include/fanthrig/lc3.h.
#![tactic(auto)]

ghost use Rattle.std.specs.Prelude.{◌≡◌};
ghost use Rattle.lent.specs.Lent.{refusal_of};
ghost use Rattle.monitor.specs.Vectors.{ours};
ghost use Rattle.monitor.specs.Install.{filling, vectors_of, install_of};

use lent::Refusal;
use monitor::Routines;

// 0, or the number of the refusal.
fn number(answer: Result<(), Refusal>) -> u32
    ensures { result ≡ refusal_of answer }
{
    match answer {
        Ok(()) => 0,
        Err(refusal) => u32::from(refusal),
    }
}

// Puts the monitor into lent memory, and answers 0 or the number of the refusal.
pub fn lc3_monitor(memory: &mut [u16]) -> u32
    ensures { filling result memory.new ≡ install_of memory.old }
{
    number(installer::install(memory))
}

// Where the monitor's routines are.
pub fn lc3_monitor_routines() -> Routines
    ensures { result ≡ ours }
{
    installer::ours()
}

// Writes the words x0000 to x01FF for these routines to the start of a lent buffer, and answers likewise.
pub fn lc3_vectors(routines: Routines, words: &mut [u16]) -> u32
    ensures { filling result words.new ≡ vectors_of routines words.old }
{
    number(installer::vectors(routines, words))
}
