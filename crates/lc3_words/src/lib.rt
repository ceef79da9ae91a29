// Instruction words for hosts in C and Rust: reading and writing, with an instruction as one flat record (M4, M11.3,
// M11.4). Every call accepts every argument. The kinds and operands are those of include/fanthrig/lc3.h.
#![tactic(auto)]

pub mod flat;
pub mod unflat;

ghost use Rattle.std.specs.Prelude.{◌≡◌};
ghost use Rattle.word.specs.Mask.{read_with_mask_of};
ghost use Rattle.lc3_words.specs.Flat.{flat_read_of};
ghost use Rattle.lc3_words.specs.Writing.{flat_write_of, written_of};

use word::masks::read_with_mask;
use word::{Read, WriteRefusal};
use writing::write;

// An instruction: its kind, 0 for BR to 18 for TRAP; a, b, c its registers (of a BR, a is the mask) in the order in
// which the book's assembler writes them; and its signed field, trap vector or reserved field. 0 stands where a kind
// has none.
#[repr(C)]
#[derive(Clone, Copy)]
pub struct Lc3Instruction {
    pub kind: u8,
    pub a: u8,
    pub b: u8,
    pub c: u8,
    pub value: i32,
}

// An instruction, and a mask of the fixed bits of its word that are wrong, 0 for a proper word.
#[repr(C)]
#[derive(Clone, Copy)]
pub struct Lc3Reading {
    pub instruction: Lc3Instruction,
    pub mask: u16,
}

// A word and 0, or word 0 and the reason of the refusal, 1 to 3.
#[repr(C)]
#[derive(Clone, Copy)]
pub struct Lc3Written {
    pub word: u16,
    pub refusal: u32,
}

// The instruction that a word is, and its mask.
pub fn lc3_read(word: u16) -> Lc3Reading
    ensures { result ≡ flat_read_of (read_with_mask_of word) }
{
    let Read { instruction, mask } = read_with_mask(word);
    Lc3Reading {
        instruction: instruction.into(),
        mask,
    }
}

// The word of an instruction, or its refusal. Operands that the kind does not use are ignored. A kind after TRAP, 18,
// is refused as a field out of range.
#[tactic(auto, unfolding(crate::specs::Writing::written_of))]
pub fn lc3_write(instruction: Lc3Instruction) -> Lc3Written
    ensures { result ≡ written_of instruction }
{
    match write_flat(instruction) {
        Ok(word) => Lc3Written { word, refusal: 0 },
        Err(refusal) => Lc3Written {
            word: 0,
            refusal: refusal.into(),
        },
    }
}

#[tactic(auto, using(crate::proofs::ByKind::clamped_written))]
fn write_flat(instruction: Lc3Instruction) -> Result<u16, WriteRefusal>
    ensures { result ≡ flat_write_of instruction }
{
    write(instruction.try_into()?)
}
