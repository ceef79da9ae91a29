// What is wrong, at which word and in which state (specs/Finding.antt), as the C interface has it.
ghost use Rattle.std.specs.Prelude.{◌≡◌};
ghost use Rattle.findings.specs.Finding.{wrong};
ghost use Rattle.findings.specs.Found.{certified};

use crate::{Certified, Fault};

// Rows past xFFFF are of no word: 65,536 is named for them.
#[tactic(auto, unfolding(crate::specs::Finding::wrong))]
fn wrong(finding: u32, a: usize, state: u32) -> Certified
    ensures { result ≡ wrong finding a state }
{
    Certified {
        finding,
        address: a.min(65536) as u32,
        state,
    }
}

impl From<Result<(), Fault>> for Certified {
    ghost from_gives = { λ r c. c ≡ certified r };

    fn from(found: Result<(), Fault>) -> Certified {
        let Err(fault) = found else {
            return Certified {
                finding: 0,
                address: 0,
                state: 0,
            };
        };
        match fault {
            Fault::NotEightWatched => wrong(1, 0, 0),
            Fault::NoRoom => wrong(2, 0, 0),
            Fault::NoEntry(a) => wrong(3, usize::from(a), 0),
            Fault::NoReturn(a) => wrong(4, usize::from(a), 0),
            Fault::NotFixed(a, k) => wrong(5, a, k),
            Fault::NotSound(a, k) => wrong(6, usize::from(a), k),
            Fault::NotHarmless(a, k) => wrong(7, usize::from(a), k),
        }
    }
}
