// What each instruction asks for, from registers, PC and PSR alone.
ghost use Rattle.std.specs.Prelude.{◌≡◌, cond};
ghost use Rattle.machine.specs.Words.{plus};
ghost use Rattle.machine.specs.Psr.{is_taken};
ghost use Rattle.machine.specs.Edition.{edition_of};
ghost use Rattle.machine.specs.Plan.{plan_by};

use machine::Plan;
use step_parts::edition::{jsrr_target, lea_plan};
use step_parts::psr::is_taken;
use step_parts::words::{bit_and, complement, next, register, sum};
use word::Instruction;

fn branch(mask: u8, psr: u16, next: u16, n: i16) -> u16
    ensures { result ≡ cond (is_taken mask psr) (plus next n) next }
{
    if is_taken(mask, psr) {
        return word::fields::offset(next, n);
    }
    next
}

pub fn plan_for(second: bool, regs: &[u16; 8], pc: u16, psr: u16, i: Instruction) -> Plan
    ensures { result ≡ plan_by (edition_of second) regs.now pc psr i }
{
    let next = next(pc);
    match i {
        Instruction::Br(mask, n) => Plan::Jump(branch(mask, psr, next, n)),
        Instruction::AddRegister(d, a, b) => {
            Plan::Move(d, sum(register(regs, a), register(regs, b)), next)
        }
        Instruction::AddImmediate(d, a, n) => {
            Plan::Move(d, word::fields::offset(register(regs, a), n), next)
        }
        Instruction::Ld(d, n) => Plan::Load(d, word::fields::offset(next, n)),
        Instruction::St(s, n) => Plan::Store(register(regs, s), word::fields::offset(next, n)),
        Instruction::Jsr(n) => Plan::Put(7, next, word::fields::offset(next, n)),
        Instruction::Jsrr(b) => Plan::Put(7, next, jsrr_target(second, regs, next, b)),
        Instruction::AndRegister(d, a, b) => {
            Plan::Move(d, bit_and(register(regs, a), register(regs, b)), next)
        }
        Instruction::AndImmediate(d, a, n) => {
            Plan::Move(
                d,
                bit_and(register(regs, a), word::fields::word_of(n)),
                next,
            )
        }
        Instruction::Ldr(d, b, n) => Plan::Load(d, word::fields::offset(register(regs, b), n)),
        Instruction::Str(s, b, n) => {
            Plan::Store(
                register(regs, s),
                word::fields::offset(register(regs, b), n),
            )
        }
        Instruction::Rti => Plan::Return,
        Instruction::Not(d, a) => Plan::Move(d, complement(register(regs, a)), next),
        Instruction::Ldi(d, n) => Plan::LoadBy(d, word::fields::offset(next, n)),
        Instruction::Sti(s, n) => Plan::StoreBy(register(regs, s), word::fields::offset(next, n)),
        Instruction::Jmp(b) => Plan::Jump(register(regs, b)),
        Instruction::Reserved(_) => Plan::Illegal,
        Instruction::Lea(d, n) => lea_plan(second, d, word::fields::offset(next, n), next),
        Instruction::Trap(vector) => Plan::Call(vector),
    }
}
