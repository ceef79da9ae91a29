// The calls of `lc3_words`, exported to hosts in C and Rust.
#![tactic(auto)]

ghost use Rattle.std.specs.Prelude.{◌≡◌};
ghost use Rattle.word.specs.Mask.{read_with_mask_of};
ghost use Rattle.lc3_words.specs.Flat.{flat_read_of};
ghost use Rattle.lc3_words.specs.Writing.{written_of};

use lc3_words::{Lc3Instruction, Lc3Reading, Lc3Written};

// The instruction that a word is, and its mask.
#[unsafe(no_mangle)]
pub extern "C" fn lc3_read(word: u16) -> Lc3Reading
    ensures { result ≡ flat_read_of (read_with_mask_of word) }
{
    lc3_words::lc3_read(word)
}

// The word of an instruction, or its refusal. Operands that the kind does not use are ignored. A kind after TRAP, 18,
// is refused as a field out of range.
#[unsafe(no_mangle)]
pub extern "C" fn lc3_write(instruction: Lc3Instruction) -> Lc3Written
    ensures { result ≡ written_of instruction }
{
    lc3_words::lc3_write(instruction)
}
