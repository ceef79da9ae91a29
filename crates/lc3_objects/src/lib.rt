// Object files for hosts in C and Rust: a file loaded into lent memory and started, a candidate's file too, and one
// written from a range of memory. The calls accept every argument; the refusals are those of include/fanthrig/lc3.h.
#![tactic(auto)]

ghost use Rattle.std.specs.Prelude.{◌≡◌, ℕ, List};
ghost use Rattle.lent.specs.Lent.{host_counted};
ghost use Rattle.object.specs.Calls.{save_of};
ghost use Rattle.start.specs.Start.{zero_machine, starting, started_of, user_started_of};
ghost use Rattle.lc3_objects.specs.Answers.{host_starting};

use lent::{Lc3Counted, Refusal};
use machine::Machine;
use start::Started;

// A fresh record at the file's origin and the number of words loaded, with 0; or both all zero, with the number of the
// refusal. 56 bytes.
#[repr(C)]
#[derive(Clone, Copy)]
pub struct Lc3Started {
    pub machine: Machine,
    pub words: u32,
    pub refusal: u32,
}

// The record of a refusal (M25.2).
fn zero() -> Machine
    ensures { result ≡ zero_machine }
{
    Machine::default()
}

impl From<Result<Started, Refusal>> for Lc3Started {
    ghost from_gives = { λ answer r. (memory : List ℕ) → host_starting r memory ≡ starting answer memory };

    fn from(answer: Result<Started, Refusal>) -> Lc3Started {
        match answer {
            Ok(started) => Lc3Started {
                machine: started.machine,
                words: started.words,
                refusal: 0,
            },
            Err(refusal) => Lc3Started {
                machine: zero(),
                words: 0,
                refusal: u32::from(refusal),
            },
        }
    }
}

pub fn lc3_start(file: &[u8], memory: &mut [u16], user: bool, stack: u16) -> Lc3Started
    ensures { host_starting result memory.new
        ≡ started_of file.now memory.old user stack }
{
    Lc3Started::from(starter::start(file, memory, user, stack))
}

pub fn lc3_start_user(file: &[u8], memory: &mut [u16], stack: u16) -> Lc3Started
    ensures { host_starting result memory.new
        ≡ user_started_of file.now memory.old stack }
{
    Lc3Started::from(starter::start_user(file, memory, stack))
}

pub fn lc3_save(memory: &[u16], origin: u16, words: usize, output: &mut [u8]) -> Lc3Counted
    ensures { host_counted result output.new
        ≡ save_of memory.now origin words output.old }
{
    Lc3Counted::from(loader::save(memory, origin, words, output))
}
