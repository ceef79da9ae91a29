// Writing an instruction as a word (M4.6, M11.3). An instruction with a
// part out of range is refused; bits that Figure A.2 fixes are set as in the figure.
#![tactic(auto)]

ghost use Rattle.std.specs.Prelude.{◌≡◌, ◌≤◌, ◌<◌, MatchResult};
ghost use Rattle.word.specs.Writing.{write_of};
ghost use Rattle.word.specs.declared.WriteRefusal.TheVariants.{Register};
ghost use Rattle.writing.specs.Encoding.{field_form, registers_form, number_form, branch_form};

use word::fields::{size, truncate};
use word::{Instruction, WriteRefusal};

// The word of an instruction, or its refusal. The first argument of each encoder is the opcode
// with the fixed bits of Figure A.2. Where a form lacks a register, 0 stands for it, and where it
// lacks a field, the number 0 in a field of half 1.
#[tactic(auto, unfolding(word::specs::Writing::write_of))]
pub fn write(i: Instruction) -> Result<u16, WriteRefusal>
    ensures { result ≡ write_of i }
{
    match i {
        Instruction::Br(mask, pcoffset9) => encode_branch(mask, pcoffset9),
        Instruction::AddRegister(dr, sr1, sr2) => encode_registers(0x1000, dr, sr1, sr2),
        Instruction::AddImmediate(dr, sr1, imm5) => encode_field(0x1020, dr, sr1, 16, imm5),
        Instruction::Ld(dr, pcoffset9) => encode_field(0x2000, dr, 0, 256, pcoffset9),
        Instruction::St(sr, pcoffset9) => encode_field(0x3000, sr, 0, 256, pcoffset9),
        Instruction::Jsr(pcoffset11) => encode_field(0x4800, 0, 0, 1024, pcoffset11),
        Instruction::Jsrr(base) => encode_field(0x4000, 0, base, 1, 0),
        Instruction::AndRegister(dr, sr1, sr2) => encode_registers(0x5000, dr, sr1, sr2),
        Instruction::AndImmediate(dr, sr1, imm5) => encode_field(0x5020, dr, sr1, 16, imm5),
        Instruction::Ldr(dr, base, offset6) => encode_field(0x6000, dr, base, 32, offset6),
        Instruction::Str(sr, base, offset6) => encode_field(0x7000, sr, base, 32, offset6),
        Instruction::Rti => Ok(0x8000),
        Instruction::Not(dr, sr) => encode_field(0x903F, dr, sr, 1, 0),
        Instruction::Ldi(dr, pcoffset9) => encode_field(0xA000, dr, 0, 256, pcoffset9),
        Instruction::Sti(sr, pcoffset9) => encode_field(0xB000, sr, 0, 256, pcoffset9),
        Instruction::Jmp(base) => encode_field(0xC000, 0, base, 1, 0),
        Instruction::Reserved(low12) => encode_number(0xD000, 4096, low12),
        Instruction::Lea(dr, pcoffset9) => encode_field(0xE000, dr, 0, 256, pcoffset9),
        Instruction::Trap(trapvect8) => encode_number(0xF000, 256, trapvect8),
    }
}

// A register at bit 9, one at bit 6, and a signed field of the given half at bit 0.
fn encode_field(
    fixed: u16,
    bits11to9: u8,
    bits8to6: u8,
    half: u16,
    n: i16,
) -> Result<u16, WriteRefusal>
    requires { (fixed ≤ 0xE000) × (half ≤ 1024) }
    ensures { result ≡ field_form fixed bits11to9 bits8to6 half n }
{
    let high = fixed + register(bits11to9)? * 512 + register(bits8to6)? * 64;
    if half <= size(n) {
        return Err(WriteRefusal::Field);
    }
    Ok(high + truncate(n, half))
}

// Registers at bits 9, 6 and 0.
fn encode_registers(
    fixed: u16,
    bits11to9: u8,
    bits8to6: u8,
    bits2to0: u8,
) -> Result<u16, WriteRefusal>
    requires { fixed ≤ 0xE000 }
    ensures { result ≡ registers_form fixed bits11to9 bits8to6 bits2to0 }
{
    Ok(fixed + register(bits11to9)? * 512 + register(bits8to6)? * 64 + register(bits2to0)?)
}

// A number below the limit at bit 0: the trap vector and the reserved field.
fn encode_number(fixed: u16, limit: u16, n: u16) -> Result<u16, WriteRefusal>
    requires { (fixed ≤ 0xF000) × (limit ≤ 4096) }
    ensures { result ≡ number_form fixed limit n }
{
    if limit <= n {
        return Err(WriteRefusal::Field);
    }
    Ok(fixed + n)
}

// BR: the mask at bit 9 and PCoffset9 at bit 0; the field is tested before the mask.
fn encode_branch(mask: u8, pcoffset9: i16) -> Result<u16, WriteRefusal>
    ensures { result ≡ branch_form mask pcoffset9 }
{
    if 256 <= size(pcoffset9) {
        return Err(WriteRefusal::Field);
    }
    if 7 < mask {
        return Err(WriteRefusal::BranchMask);
    }
    Ok((mask as u16) * 512 + truncate(pcoffset9, 256))
}

// A register for a word, which has three bits for each.
fn register(r: u8) -> Result<u16, WriteRefusal>
    ensures { MatchResult result (λ bits. (r < 8) × (bits ≡ r)) (λ refusal. (8 ≤ r) × (refusal ≡ Register)) }
{
    if 7 < r {
        return Err(WriteRefusal::Register);
    }
    Ok(r as u16)
}
