// Jumps to known addresses, TRAP in a routine, and RTI.
ghost use Rattle.std.specs.Prelude.{◌≡◌, ◌≤◌, List, ℕ};
ghost use Rattle.sitting.specs.Test.{State as Tested, Claim as Test, cell_at, value_in, jumps_by, calls_by, returns_by};
ghost use Rattle.sitting.specs.Values.{number_of};
ghost use Rattle.claims.specs.Encoding.{claim_with};
ghost use Rattle.claims.specs.Decoded.{known, known_state, claim_by};
ghost use Rattle.accesses.specs.Leads.{reaches, Leads};
ghost use Rattle.ways.specs.Ways.{Goes};
ghost use Rattle.ways.specs.Pushed.{pushed};

use crate::Way;
use claims::cells::Cell;
use claims::states::State;
use claims::values::Known;
use claims::{Claim, Watched};
use step_parts::words::next;

// JMP, RET, JSRR: to a known address.
#[tactic(auto, unfolding(sitting::specs::Test::jumps_by))]
pub fn target_of(v: Known) -> Option<u16>
    ensures { (c : Test) (σ : Tested) → reaches c result σ ≡ jumps_by c (known v) σ }
{
    match v {
        Known::Is(a) => Some(a),
        _ => None,
    }
}

// TRAP in a routine pushes the PSR, which is less than x8000, and Next.
#[tactic(auto, using(claims::proofs::StateLaws::put_six))]
fn push_two(t: &mut State, watched: &Watched, pc: u16, sp: u16)
    requires { 2 ≤ sp }
    ensures { known_state t.new ≡ pushed watched.now pc sp (known_state t.old) }
{
    t.remember_at(watched, sp - 1, Known::Low);
    t.remember_at(watched, sp - 2, Known::Is(next(pc)));
    t.put_in(6, Known::Is(sp - 2));
}

#[tactic(auto, using(crate::proofs::JumpLaws::called), unfolding(sitting::specs::Test::calls_from))]
pub fn calls_by(t: &mut State, c: &Claim, pc: u16, vector: u16) -> Option<u16>
    ensures { Leads (claim_by c.now) result (known_state t.new)
        (λ c. calls_by c pc (cell_at c.cells vector) (known_state t.old)) }
{
    let Cell::Fixed(to) = c.cell_at(vector) else {
        return None;
    };
    let Known::Is(sp) = t.register(6) else {
        return None;
    };
    if u32::from(sp) < u32::from(c.lowest) + 2 {
        return None;
    }
    push_two(t, c.watched, pc, sp);
    Some(to)
}

// RTI: to User mode, where R6 is x2FFE; or back to a routine, where the two words on the stack are known.
pub fn returns_to(t: &mut State, c: &Claim) -> Option<Way>
    requires { number_of (value_in (known_state t.old).regs 6) ≤ 0x2FFE }
    ensures { (memory kinds : List ℕ) (lowest : ℕ) →
        Goes (claim_with memory kinds lowest c.now.watched.now) result (known_state t.new)
        (λ c. returns_by c (value_in (known_state t.old).regs 6) (known_state t.old)) }
{
    let Known::Is(sp) = t.register(6) else {
        return None;
    };
    if sp == 0x2FFE {
        return Some(Way::Out);
    }
    let Known::Low = t.watched_at(c.watched, usize::from(sp) + 1) else {
        return None;
    };
    let to = target_of(t.watched_at(c.watched, usize::from(sp)))?;
    t.codes = u32::from(Known::Unset);
    t.put_in(6, Known::Is(sp + 2));
    Some(Way::To(to))
}
