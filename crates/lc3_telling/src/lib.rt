// What the next step of a run does, told without making it, for hosts in C and Rust: by the third edition's rules, and
// by the second's.
#![tactic(auto)]

ghost use Rattle.std.specs.Prelude.{◌≡◌, List, ℕ};
ghost use Rattle.machine.specs.Edition.{third, second};
ghost use Rattle.run.specs.Call.{start_of};
ghost use Rattle.telling.specs.Told.{told_by};
ghost use Rattle.lc3_telling.specs.ToldAnswer.{told_answer};

use answers::Lc3Report;
use machine::Machine;
use run::Report;
use telling::{Addresses, Told};

// What is told, 40 bytes: `refusal` and `index` as a run of one step answers them; `stop` is done, 0, or halted, 1.
// Where no step would be made all that follows is 0. `reason` is the number of a log.
#[repr(C)]
#[derive(Clone, Copy)]
pub struct Lc3Told {
    pub index: u64,
    pub refusal: u32,
    pub stop: u32,
    pub word: u16,
    pub reason: u16,
    pub reads: Addresses,
    pub writes: Addresses,
}

impl From<Told> for Lc3Told {
    ghost from_gives = { λ t r. r ≡ told_answer t };

    fn from(t: Told) -> Lc3Told {
        let r = Lc3Report::from(Report::stopped(t.ending));
        let touched = t.touched;
        let rule = touched.rule;
        let reads = touched.reads;
        let writes = touched.writes;
        Lc3Told {
            index: r.index,
            refusal: r.refusal,
            stop: r.stop,
            word: t.word,
            reason: u16::from(rule),
            reads,
            writes,
        }
    }
}

pub fn lc3_tell(m: Machine, memory: &[u16], times: &[u64], bytes: &[u8]) -> Lc3Told
    ensures { (output : List ℕ) → result ≡ told_answer (told_by third
        (start_of m memory.now times.now bytes.now output)) }
{
    Lc3Told::from(next_step::tell(false, m, memory, times, bytes))
}

pub fn lc3_tell_second(m: Machine, memory: &[u16], times: &[u64], bytes: &[u8]) -> Lc3Told
    ensures { (output : List ℕ) → result ≡ told_answer (told_by second
        (start_of m memory.now times.now bytes.now output)) }
{
    Lc3Told::from(next_step::tell(true, m, memory, times, bytes))
}
