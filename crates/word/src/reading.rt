// Reading a word as an instruction (M4.1). Every word is accepted, and bits that Figure A.2 fixes are
// ignored (M4.5).
ghost use Rattle.std.specs.Prelude.{◌≡◌};
ghost use Rattle.word.specs.Reading.{read_of, read_add, read_jsr, read_and};

use super::fields::extend;
use super::{Instruction, fields};

// The instruction that a word is: bits 15 to 12 are the opcode.
#[tactic(auto, unfolding(crate::specs::Reading::read_of), using(crate::proofs::Casts::kept))]
pub fn read(word: u16) -> Instruction
    ensures { result ≡ read_of word }
{
    let opcode = word / 4096;
    let bits11to9 = fields::bits11to9(word);
    let bits8to6 = fields::bits8to6(word);
    match opcode {
        0 => Instruction::Br(bits11to9, extend(word, 256)),
        1 => read_add(word),
        2 => Instruction::Ld(bits11to9, extend(word, 256)),
        3 => Instruction::St(bits11to9, extend(word, 256)),
        4 => read_jsr(word),
        5 => read_and(word),
        6 => Instruction::Ldr(bits11to9, bits8to6, extend(word, 32)),
        7 => Instruction::Str(bits11to9, bits8to6, extend(word, 32)),
        8 => Instruction::Rti,
        9 => Instruction::Not(bits11to9, bits8to6),
        10 => Instruction::Ldi(bits11to9, extend(word, 256)),
        11 => Instruction::Sti(bits11to9, extend(word, 256)),
        12 => Instruction::Jmp(bits8to6),
        13 => Instruction::Reserved(word % 4096),
        14 => Instruction::Lea(bits11to9, extend(word, 256)),
        _ => Instruction::Trap(word % 256),
    }
}

// ADD: bit 5 chooses between SR2 and imm5. One operand type, read once for ADD and AND, costs lc3_read 28 instructions.
fn read_add(word: u16) -> Instruction
    ensures { result ≡ read_add word }
{
    let bits11to9 = fields::bits11to9(word);
    let bits8to6 = fields::bits8to6(word);
    let bits2to0 = fields::bits2to0(word);
    if word / 32 % 2 == 0 {
        Instruction::AddRegister(bits11to9, bits8to6, bits2to0)
    } else {
        Instruction::AddImmediate(bits11to9, bits8to6, extend(word, 16))
    }
}

// JSR and JSRR: bit 11 chooses between BaseR and PCoffset11.
fn read_jsr(word: u16) -> Instruction
    ensures { result ≡ read_jsr word }
{
    let bits8to6 = fields::bits8to6(word);
    if word / 2048 % 2 == 0 {
        Instruction::Jsrr(bits8to6)
    } else {
        Instruction::Jsr(extend(word, 1024))
    }
}

// AND: bit 5 chooses between SR2 and imm5.
fn read_and(word: u16) -> Instruction
    ensures { result ≡ read_and word }
{
    let bits11to9 = fields::bits11to9(word);
    let bits8to6 = fields::bits8to6(word);
    let bits2to0 = fields::bits2to0(word);
    if word / 32 % 2 == 0 {
        Instruction::AndRegister(bits11to9, bits8to6, bits2to0)
    } else {
        Instruction::AndImmediate(bits11to9, bits8to6, extend(word, 16))
    }
}
