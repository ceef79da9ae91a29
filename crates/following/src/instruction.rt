// Each instruction: what it leads to, and whether the table knows no more there.
#![tactic(auto, unfolding(sitting::specs::Test::harmless, ways::specs::Ways::way_holds))]

ghost use Rattle.std.specs.Prelude.{◌≡◌, ◌≤◌};
ghost use Rattle.sitting.specs.Values.{number_of};
ghost use Rattle.sitting.specs.Test.{value_in, harmless};
ghost use Rattle.claims.specs.Decoded.{known_state, claim_by, claim_in};
ghost use Rattle.ways.specs.Ways.{Goes};

use crate::forms::{
    add_immediate, add_register, and_immediate, and_register, br, jmp, jsr, jsrr, ld, ldi, ldr,
    lea, not, st, sti, str,
};
use claims::Claim;
use claims::states::State;
use ways::Way;
use ways::branch::branches;
use ways::jump::{calls_by, returns_to};
use word::Instruction;

pub fn leads(t: &mut State, c: &Claim, pc: u16, i: Instruction) -> Option<Way>
    requires { number_of (value_in (known_state t.old).regs 6) ≤ 0x2FFE }
    ensures { Goes (claim_by c.now) result (known_state t.new) (λ c. harmless c pc i (known_state t.old)) }
{
    Some(match i {
        Instruction::Br(mask, o) => br(pc, mask, o),
        Instruction::AddRegister(d, a, b) => Way::To(add_register(t, pc, d, a, b)),
        Instruction::AddImmediate(d, a, o) => Way::To(add_immediate(t, pc, d, a, o)),
        Instruction::Ld(d, o) => Way::To(ld(t, c, pc, d, o)?),
        Instruction::St(s, o) => Way::To(st(t, c, pc, s, o)?),
        Instruction::Jsr(o) => Way::To(jsr(t, pc, o)),
        Instruction::Jsrr(b) => Way::To(jsrr(t, pc, b)?),
        Instruction::AndRegister(d, a, b) => Way::To(and_register(t, pc, d, a, b)),
        Instruction::AndImmediate(d, a, o) => Way::To(and_immediate(t, pc, d, a, o)),
        Instruction::Ldr(d, b, o) => Way::To(ldr(t, c, pc, d, b, o)?),
        Instruction::Str(s, b, o) => Way::To(str(t, c, pc, s, b, o)?),
        Instruction::Rti => returns_to(t, c)?,
        Instruction::Not(d, a) => Way::To(not(t, pc, d, a)),
        Instruction::Ldi(d, o) => Way::To(ldi(t, c, pc, d, o)?),
        Instruction::Sti(s, o) => Way::To(sti(t, c, pc, s, o)?),
        Instruction::Jmp(b) => Way::To(jmp(t, b)?),
        Instruction::Reserved(_) => return None,
        Instruction::Lea(d, o) => Way::To(lea(t, pc, d, o)),
        Instruction::Trap(vector) => Way::To(calls_by(t, c, pc, vector)?),
    })
}

// From this state the instruction is harmless, and leads to what the table says.
pub fn is_harmless(t: &mut State, c: &Claim, pc: u16, i: Instruction) -> bool
    requires { number_of (value_in (known_state t.old).regs 6) ≤ 0x2FFE }
    ensures { result ≡ harmless (claim_in c.now) pc i (known_state t.old) }
{
    match leads(t, c, pc, i) {
        Some(Way::To(a)) => c.accepts(a, t),
        Some(Way::Fork(mask, there, here)) => branches(t, c, mask, there, here),
        Some(Way::Out) => true,
        None => false,
    }
}
