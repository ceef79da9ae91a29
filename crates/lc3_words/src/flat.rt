// The flat form of an instruction, by the table of include/fanthrig/lc3.h.
ghost use Rattle.std.specs.Prelude.{◌≡◌, pos};
ghost use Rattle.lc3_words.specs.Flat.{flat, flat_of};

use super::Lc3Instruction;
use word::Instruction;

// Kinds are numbered in the order of the variants.
impl From<Instruction> for Lc3Instruction {
    ghost from_gives = { λ i flat. flat ≡ flat_of i };

    #[tactic(auto, unfolding(crate::specs::Flat::flat_of))]
    fn from(i: Instruction) -> Lc3Instruction {
        match i {
            Instruction::Br(mask, pcoffset9) => with_signed(0, mask, 0, 0, pcoffset9),
            Instruction::AddRegister(dr, sr1, sr2) => with_signed(1, dr, sr1, sr2, 0),
            Instruction::AddImmediate(dr, sr1, imm5) => with_signed(2, dr, sr1, 0, imm5),
            Instruction::Ld(dr, pcoffset9) => with_signed(3, dr, 0, 0, pcoffset9),
            Instruction::St(sr, pcoffset9) => with_signed(4, sr, 0, 0, pcoffset9),
            Instruction::Jsr(pcoffset11) => with_signed(5, 0, 0, 0, pcoffset11),
            Instruction::Jsrr(base) => with_signed(6, base, 0, 0, 0),
            Instruction::AndRegister(dr, sr1, sr2) => with_signed(7, dr, sr1, sr2, 0),
            Instruction::AndImmediate(dr, sr1, imm5) => with_signed(8, dr, sr1, 0, imm5),
            Instruction::Ldr(dr, base, offset6) => with_signed(9, dr, base, 0, offset6),
            Instruction::Str(sr, base, offset6) => with_signed(10, sr, base, 0, offset6),
            Instruction::Rti => with_signed(11, 0, 0, 0, 0),
            Instruction::Not(dr, sr) => with_signed(12, dr, sr, 0, 0),
            Instruction::Ldi(dr, pcoffset9) => with_signed(13, dr, 0, 0, pcoffset9),
            Instruction::Sti(sr, pcoffset9) => with_signed(14, sr, 0, 0, pcoffset9),
            Instruction::Jmp(base) => with_signed(15, base, 0, 0, 0),
            Instruction::Reserved(low12) => with_unsigned(16, low12),
            Instruction::Lea(dr, pcoffset9) => with_signed(17, dr, 0, 0, pcoffset9),
            Instruction::Trap(trapvect8) => with_unsigned(18, trapvect8),
        }
    }
}

// A flat instruction with a signed field, or none: then the value is 0.
fn with_signed(kind: u8, a: u8, b: u8, c: u8, n: i16) -> Lc3Instruction
    ensures { result ≡ flat kind a b c n }
{
    let value = n as i32;
    Lc3Instruction {
        kind,
        a,
        b,
        c,
        value,
    }
}

// A flat instruction with a trap vector or reserved field alone.
fn with_unsigned(kind: u8, n: u16) -> Lc3Instruction
    ensures { result ≡ flat kind 0 0 0 (pos n) }
{
    let value = n as i32;
    Lc3Instruction {
        kind,
        a: 0,
        b: 0,
        c: 0,
        value,
    }
}
