// Buffers that a caller lends. A call that writes to one answers how many items it wrote, or why it was refused; how
// the buffer is written, and what else the contracts of calls share, is in specs/.
#![tactic(auto)]

ghost use Rattle.std.specs.Prelude.{◌≡◌, ℕ, List};
ghost use Rattle.lent.specs.Lent.{refusal_number, host_counted, counted};

use std::error::Error;
use std::fmt;

// Why a call is refused that reads or writes what is lent.
#[derive(Clone, Copy, Debug, PartialEq, Eq)]
pub enum Refusal {
    // 11: memory is not 65,536 words
    MemorySize,
    // 16: the output is too short
    NoRoom,
    // 17: the file has an odd number of bytes, or fewer than two
    BrokenFile,
    // 18: the words of the file would go past xFFFF
    PastMemory,
    // 20: the range of a page goes past xFFFF
    RangePastMemory,
    // 21: a word of the file would lie outside x3000 to xFDFF
    OutsideUserWords,
}

impl From<Refusal> for u32 {
    ghost from_gives = { λ refusal number. number ≡ refusal_number refusal };

    fn from(refusal: Refusal) -> u32 {
        match refusal {
            Refusal::MemorySize => 11,
            Refusal::NoRoom => 16,
            Refusal::BrokenFile => 17,
            Refusal::PastMemory => 18,
            Refusal::RangePastMemory => 20,
            Refusal::OutsideUserWords => 21,
        }
    }
}

impl fmt::Display for Refusal {
    fn fmt<W: fmt::Write>(&self, f: &mut fmt::Formatter<W>) -> fmt::Result {
        write!(f, "refused with {}", u32::from(*self))
    }
}

impl Error for Refusal {}

// For a host: the number of items written, with 0; or 0, with the number of the refusal.
#[repr(C)]
#[derive(Clone, Copy)]
pub struct Lc3Counted {
    pub count: u64,
    pub refusal: u32,
}

impl From<Result<usize, Refusal>> for Lc3Counted {
    ghost from_gives = { λ answer r. (output : List ℕ) → host_counted r output ≡ counted answer output };

    fn from(answer: Result<usize, Refusal>) -> Lc3Counted {
        match answer {
            Ok(count) => Lc3Counted {
                count: count as u64,
                refusal: 0,
            },
            Err(refusal) => Lc3Counted {
                count: 0,
                refusal: u32::from(refusal),
            },
        }
    }
}
