// Each form of instruction, by its mnemonic: what it leads to.
#![tactic(auto, unfolding(sitting::specs::Test::harmless, sitting::specs::Test::is_first))]

ghost use Rattle.std.specs.Prelude.{◌≡◌, ℕ};
ghost use Rattle.word.specs.declared.Instruction.TheVariants.{AddRegister, AddImmediate, Ld, St, Jsr, Jsrr};
ghost use Rattle.word.specs.declared.Instruction.TheVariants.{AndRegister, AndImmediate, Ldr, Str, Not, Ldi, Sti};
ghost use Rattle.word.specs.declared.Instruction.TheVariants.{Jmp, Lea, Br};
ghost use Rattle.machine.specs.Words.{next};
ghost use Rattle.sitting.specs.Values.{is};
ghost use Rattle.sitting.specs.Test.{Claim as Test, State as Tested, accepts, moved, put, harmless};
ghost use Rattle.claims.specs.Decoded.{known, known_state, claim_by};
ghost use Rattle.accesses.specs.Leads.{reaches, Leads};
ghost use Rattle.ways.specs.Ways.{way_holds};

use accesses::{loads_at, loads_by, loads_through, stores_at, stores_by, stores_through};
use claims::Claim;
use claims::states::State;
use claims::values::Known;
use step_parts::words::next;
use ways::Way;
use ways::jump::target_of;
use word::fields::{offset, word_of};

// A register takes a value, with the codes set from it, and the next instruction follows.
fn moves(t: &mut State, pc: u16, r: u8, v: Known) -> u16
    ensures { (c : Test) → accepts c result (known_state t.new)
        ≡ accepts c (next pc) (moved r (known v) (known_state t.old)) }
{
    t.move_to(r, v);
    next(pc)
}

// A register takes an address, with the codes kept.
fn puts(t: &mut State, r: u8, a: u16, to: u16) -> u16
    ensures { (c : Test) → accepts c result (known_state t.new) ≡ accepts c to (put r (is a) (known_state t.old)) }
{
    t.put_in(r, Known::Is(a));
    to
}

pub fn add_register(t: &mut State, pc: u16, d: u8, a: u8, b: u8) -> u16
    ensures { (c : Test) → accepts c result (known_state t.new)
        ≡ harmless c pc (AddRegister d a b) (known_state t.old) }
{
    let v = t.register(a).sum_of(a % 8 == 0, t.register(b));
    moves(t, pc, d, v)
}

pub fn add_immediate(t: &mut State, pc: u16, d: u8, a: u8, o: i16) -> u16
    ensures { (c : Test) → accepts c result (known_state t.new)
        ≡ harmless c pc (AddImmediate d a o) (known_state t.old) }
{
    let v = t.register(a).sum_with(a % 8 == 0, word_of(o));
    moves(t, pc, d, v)
}

pub fn and_register(t: &mut State, pc: u16, d: u8, a: u8, b: u8) -> u16
    ensures { (c : Test) → accepts c result (known_state t.new)
        ≡ harmless c pc (AndRegister d a b) (known_state t.old) }
{
    let v = t.register(a).and_of(t.register(b));
    moves(t, pc, d, v)
}

pub fn and_immediate(t: &mut State, pc: u16, d: u8, a: u8, o: i16) -> u16
    ensures { (c : Test) → accepts c result (known_state t.new)
        ≡ harmless c pc (AndImmediate d a o) (known_state t.old) }
{
    let v = t.register(a).and_with(word_of(o));
    moves(t, pc, d, v)
}

pub fn not(t: &mut State, pc: u16, d: u8, a: u8) -> u16
    ensures { (c : Test) → accepts c result (known_state t.new)
        ≡ harmless c pc (Not d a) (known_state t.old) }
{
    let v = t.register(a).not_of();
    moves(t, pc, d, v)
}

pub fn lea(t: &mut State, pc: u16, d: u8, o: i16) -> u16
    ensures { (c : Test) → accepts c result (known_state t.new)
        ≡ harmless c pc (Lea d o) (known_state t.old) }
{
    let n = next(pc);
    puts(t, d, offset(n, o), n)
}

pub fn jsr(t: &mut State, pc: u16, o: i16) -> u16
    ensures { (c : Test) → accepts c result (known_state t.new)
        ≡ harmless c pc (Jsr o) (known_state t.old) }
{
    let n = next(pc);
    puts(t, 7, n, offset(n, o))
}

pub fn jsrr(t: &mut State, pc: u16, b: u8) -> Option<u16>
    ensures { (c : Test) → reaches c result (known_state t.new) ≡ harmless c pc (Jsrr b) (known_state t.old) }
{
    let to = target_of(t.register(b))?;
    Some(puts(t, 7, next(pc), to))
}

pub fn ld(t: &mut State, c: &Claim, pc: u16, d: u8, o: i16) -> Option<u16>
    ensures { Leads (claim_by c.now) result (known_state t.new) (λ c. harmless c pc (Ld d o) (known_state t.old)) }
{
    loads_at(t, c, pc, d, offset(next(pc), o))
}

pub fn ldi(t: &mut State, c: &Claim, pc: u16, d: u8, o: i16) -> Option<u16>
    ensures { Leads (claim_by c.now) result (known_state t.new) (λ c. harmless c pc (Ldi d o) (known_state t.old)) }
{
    loads_through(t, c, pc, d, offset(next(pc), o))
}

pub fn ldr(t: &mut State, c: &Claim, pc: u16, d: u8, b: u8, o: i16) -> Option<u16>
    ensures { Leads (claim_by c.now) result (known_state t.new) (λ c. harmless c pc (Ldr d b o) (known_state t.old)) }
{
    let base = t.register(b);
    loads_by(t, c, pc, d, base, o)
}

pub fn st(t: &mut State, c: &Claim, pc: u16, s: u8, o: i16) -> Option<u16>
    ensures { Leads (claim_by c.now) result (known_state t.new) (λ c. harmless c pc (St s o) (known_state t.old)) }
{
    let v = t.register(s);
    stores_at(t, c, pc, v, offset(next(pc), o))
}

pub fn sti(t: &mut State, c: &Claim, pc: u16, s: u8, o: i16) -> Option<u16>
    ensures { Leads (claim_by c.now) result (known_state t.new) (λ c. harmless c pc (Sti s o) (known_state t.old)) }
{
    let v = t.register(s);
    stores_through(t, c, pc, v, offset(next(pc), o))
}

pub fn str(t: &mut State, c: &Claim, pc: u16, s: u8, b: u8, o: i16) -> Option<u16>
    ensures { Leads (claim_by c.now) result (known_state t.new) (λ c. harmless c pc (Str s b o) (known_state t.old)) }
{
    let base = t.register(b);
    let v = t.register(s);
    stores_by(t, c, pc, base, v, o)
}

pub fn jmp(t: &State, b: u8) -> Option<u16>
    ensures { (c : Test) (pc : ℕ) → reaches c result (known_state t.now) ≡ harmless c pc (Jmp b) (known_state t.now) }
{
    target_of(t.register(b))
}

#[tactic(auto, unfolding(sitting::specs::Test::harmless, ways::specs::Ways::way_holds))]
pub fn br(pc: u16, mask: u8, o: i16) -> Way
    ensures { (c : Test) (σ : Tested) → way_holds c result σ ≡ harmless c pc (Br mask o) σ }
{
    let n = next(pc);
    Way::Fork(mask, offset(n, o), n)
}
