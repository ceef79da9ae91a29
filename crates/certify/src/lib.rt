// The test of a claim about any class's monitor (crates/sitting/specs/Test.antt): where the finding is 0, a sitting
// beside that monitor tells nothing of its secret words (specs/Answer.antt of crates/findings). Every argument is
// accepted.
#![tactic(auto)]

mod rows;
mod state;

ghost use Rattle.std.specs.Prelude.{◌≡◌};
ghost use Rattle.claims.specs.Decoded.{claim_in};
ghost use Rattle.findings.specs.Finding.{wrong_with, certify_of};
ghost use Rattle.findings.specs.Found.{certified};

use claims::{Claim, Watched};
use findings::{Certified, Fault};

// What is wrong first with a claim that watches eight words.
fn first_fault(c: &Claim) -> Result<(), Fault>
    ensures { certified result ≡ wrong_with (claim_in c.now) c.now.ends.now c.now.table.now }
{
    if !vectors::has_room(c) {
        return Err(Fault::NoRoom);
    }
    vectors::wrong_vectors(c)?;
    rows::wrong_in_rows(c)
}

// What is wrong first (crates/findings).
pub fn certify(
    memory: &[u16],
    kinds: &[u8],
    lowest: u16,
    watched: &[u16],
    ends: &[u32],
    table: &[u32],
) -> Certified
    ensures { result ≡ certify_of memory.now kinds.now lowest watched.now
        ends.now table.now }
{
    let Ok(watched) = <&Watched>::try_from(watched) else {
        return Certified::from(Err(Fault::NotEightWatched));
    };
    let claim = Claim {
        memory,
        kinds,
        lowest,
        watched,
        ends,
        table,
    };
    Certified::from(first_fault(&claim))
}
