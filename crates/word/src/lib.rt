// LC-3 instruction words, after M4; they are written in crate `writing`.
// The forms are those of Figure A.2; names of fields are the figure's.
#![tactic(auto)]

ghost use Rattle.std.specs.Prelude.{◌≡◌};
ghost use Rattle.word.specs.Writing.{refusal_number};

pub mod fields;
pub mod masks;
pub mod reading;

// An instruction, one variant for each form of Figure A.2, in the order of the opcodes.
// Registers and the BR mask are u8; signed fields are signed numbers.
#[derive(Clone, Copy, Debug, PartialEq, Eq)]
pub enum Instruction {
    // BR: the mask n, z, p (4 for n, 2 for z, 1 for p) and PCoffset9
    Br(u8, i16),
    // ADD: DR, SR1, SR2
    AddRegister(u8, u8, u8),
    // ADD: DR, SR1, imm5
    AddImmediate(u8, u8, i16),
    // LD: DR, PCoffset9
    Ld(u8, i16),
    // ST: SR, PCoffset9
    St(u8, i16),
    // JSR: PCoffset11
    Jsr(i16),
    // JSRR: BaseR
    Jsrr(u8),
    // AND: DR, SR1, SR2
    AndRegister(u8, u8, u8),
    // AND: DR, SR1, imm5
    AndImmediate(u8, u8, i16),
    // LDR: DR, BaseR, offset6
    Ldr(u8, u8, i16),
    // STR: SR, BaseR, offset6
    Str(u8, u8, i16),
    // RTI
    Rti,
    // NOT: DR, SR
    Not(u8, u8),
    // LDI: DR, PCoffset9
    Ldi(u8, i16),
    // STI: SR, PCoffset9
    Sti(u8, i16),
    // JMP: BaseR; RET is JMP R7
    Jmp(u8),
    // The reserved opcode 13: its low 12 bits
    Reserved(u16),
    // LEA: DR, PCoffset9
    Lea(u8, i16),
    // TRAP: trapvect8
    Trap(u16),
}

// What reading with the mask answers: the instruction, and which fixed bits of the word are wrong, 0 for a proper word.
#[derive(Clone, Copy)]
pub struct Read {
    pub instruction: Instruction,
    pub mask: u16,
}

// Why `writing::write` writes no word; the first of these that applies (M11.3). A host gets its number.
#[derive(Clone, Copy, Debug, PartialEq, Eq)]
pub enum WriteRefusal {
    // 1: a register above 7
    Register,
    // 2: a signed field, trap vector or reserved field out of range
    Field,
    // 3: a BR mask above 7
    BranchMask,
}

impl From<WriteRefusal> for u32 {
    ghost from_gives = { λ refusal number. number ≡ refusal_number refusal };

    fn from(refusal: WriteRefusal) -> u32 {
        match refusal {
            WriteRefusal::Register => 1,
            WriteRefusal::Field => 2,
            WriteRefusal::BranchMask => 3,
        }
    }
}
