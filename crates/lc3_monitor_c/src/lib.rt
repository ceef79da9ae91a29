// The calls of `lc3_monitor`, exported to hosts in C and Rust.
#![tactic(auto)]

ghost use Rattle.std.specs.Prelude.{◌≡◌};
ghost use Rattle.monitor.specs.Vectors.{ours};
ghost use Rattle.monitor.specs.Install.{filling, vectors_of, install_of};

use monitor::Routines;

// Puts the monitor into lent memory, and answers 0 or the number of the refusal.
#[unsafe(no_mangle)]
pub extern "C" fn lc3_monitor(memory: &mut [u16]) -> u32
    ensures { filling result memory.new ≡ install_of memory.old }
{
    lc3_monitor::lc3_monitor(memory)
}

// Where the monitor's routines are.
#[unsafe(no_mangle)]
pub extern "C" fn lc3_monitor_routines() -> Routines
    ensures { result ≡ ours }
{
    lc3_monitor::lc3_monitor_routines()
}

// Writes the words x0000 to x01FF for these routines to the start of a lent buffer, and answers likewise.
#[unsafe(no_mangle)]
pub extern "C" fn lc3_vectors(routines: Routines, words: &mut [u16]) -> u32
    ensures { filling result words.new ≡ vectors_of routines words.old }
{
    lc3_monitor::lc3_vectors(routines, words)
}
