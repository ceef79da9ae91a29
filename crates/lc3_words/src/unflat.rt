// From the flat form back to an instruction. Its fields have 16 bits, so a value beyond those is passed on as one that
// is out of every field's range too.
ghost use Rattle.std.specs.Prelude.{◌≡◌};
ghost use Rattle.lc3_words.specs.Clamping.{clamped_of};

use super::Lc3Instruction;
use word::{Instruction, WriteRefusal};

// The instruction of a kind, with the operands that it uses. 32767 stands for a signed field beyond 16 bits, and 65535
// for a trap vector or reserved field that is negative or beyond them.
impl TryFrom<Lc3Instruction> for Instruction {
    type Error = WriteRefusal;

    ghost try_from_gives = { λ f result. result ≡ clamped_of f };

    fn try_from(flat: Lc3Instruction) -> Result<Instruction, WriteRefusal> {
        let Lc3Instruction {
            kind,
            a,
            b,
            c,
            value,
        } = flat;
        if 18 < kind {
            return Err(WriteRefusal::Field);
        }
        let n = i16::try_from(value).unwrap_or(32767);
        // u16::try_from costs lc3_write two instructions more.
        let u = match value {
            0..=65535 => value as u16,
            _ => 65535,
        };
        Ok(match kind {
            0 => Instruction::Br(a, n),
            1 => Instruction::AddRegister(a, b, c),
            2 => Instruction::AddImmediate(a, b, n),
            3 => Instruction::Ld(a, n),
            4 => Instruction::St(a, n),
            5 => Instruction::Jsr(n),
            6 => Instruction::Jsrr(a),
            7 => Instruction::AndRegister(a, b, c),
            8 => Instruction::AndImmediate(a, b, n),
            9 => Instruction::Ldr(a, b, n),
            10 => Instruction::Str(a, b, n),
            11 => Instruction::Rti,
            12 => Instruction::Not(a, b),
            13 => Instruction::Ldi(a, n),
            14 => Instruction::Sti(a, n),
            15 => Instruction::Jmp(a),
            16 => Instruction::Reserved(u),
            17 => Instruction::Lea(a, n),
            _ => Instruction::Trap(u),
        })
    }
}
