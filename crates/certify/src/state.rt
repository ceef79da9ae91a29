// One state of the table: its stack is known, and the instruction from it is harmless.
ghost use Rattle.std.specs.Prelude.{◌≡◌, true, ◌+◌, ◌*◌, ◌≤◌, length, take, drop};
ghost use Rattle.std.specs.List.{list_all, zip};
ghost use Rattle.sitting.specs.Values.{number_of};
ghost use Rattle.sitting.specs.Test.{is_kept, sound, value_in};
ghost use Rattle.claims.specs.Encoding.{value_of, state_of};
ghost use Rattle.claims.specs.Decoded.{known, known_state, claim_in};
ghost use Rattle.findings.specs.Finding.{wrong_in};
ghost use Rattle.findings.specs.Found.{certified};

use claims::Claim;
use claims::cells::Cell;
use claims::states::State;
use claims::values::Known;
use findings::Fault;
use following::instruction::is_harmless;
use word::Instruction;

// What an interrupt's two words cannot change: nothing is known of a watched word, or it is one of the monitor's own,
// or of the stack from R6 on.
#[tactic(auto, unfolding(sitting::specs::Test::is_kept, sitting::specs::Test::is_own))]
fn is_kept(c: &Claim, sp: u16, w: u16, v: Known) -> bool
    ensures { result ≡ is_kept (claim_in c.now) sp w (known v) }
{
    Known::Any.says_all(v) || c.cell_at(w) == Cell::Own || (sp <= w && w < 0x3000)
}

fn all_kept(s: &State, c: &Claim, sp: u16) -> bool
    ensures same_len { length c.now.watched.now ≡ length s.now.words }
    ensures value { result
        ≡ list_all (λ p. is_kept (claim_in c.now) sp p.0 (value_of p.1)) (zip c.now.watched.now s.now.words) }
{
    let watched = c.watched;
    watched
        .iter()
        .zip(&s.words)
        .all(|(w, v)| is_kept(c, sp, *w, Known::from(*v)))
}

// R6 is a known address of the stack, with the trap's two words above it.
#[tactic(auto, unfolding(sitting::specs::Test::sound, sitting::specs::Values::number_of))]
fn is_sound(s: &State, c: &Claim) -> bool
    ensures value { result ≡ sound (claim_in c.now) (value_in (known_state s.now).regs 6) (known_state s.now).words }
    ensures bound { result ≡ true → number_of (value_in (known_state s.now).regs 6) ≤ 0x2FFE }
{
    match s.register(6) {
        Known::Is(sp) => c.lowest <= sp && sp <= 0x2FFE && all_kept(s, c, sp),
        _ => false,
    }
}

// What is wrong with state k: its stack, or the instruction.
#[tactic(auto, using(findings::proofs::FindingLaws::in_state))]
pub fn wrong_in(c: &Claim, pc: u16, i: Instruction, k: u32) -> Result<(), Fault>
    requires { (k + 1) * 17 ≤ length c.now.table.now }
    ensures { certified result ≡ wrong_in (claim_in c.now) pc i k
        (state_of (take 17 (drop (k * 17) c.now.table.now))) }
{
    let mut t = State::from(c.state(k));
    if !is_sound(&t, c) {
        return Err(Fault::NotSound(pc, k));
    }
    if !is_harmless(&mut t, c, pc, i) {
        return Err(Fault::NotHarmless(pc, k));
    }
    Ok(())
}
