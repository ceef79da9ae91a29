// Which of the bits that Figure A.2 fixes are wrong in a word, as a number with 1 in their places (M21).
ghost use Rattle.std.specs.Prelude.{◌≡◌};
ghost use Rattle.word.specs.Mask.{mask_of, operand_mask, jsr_mask, read_with_mask_of};

use super::Read;
use super::reading::read;

// The instruction that a word is, and its mask.
pub fn read_with_mask(word: u16) -> Read
    ensures { result ≡ read_with_mask_of word }
{
    let instruction = read(word);
    let mask = mask(word);
    Read { instruction, mask }
}

// 0 for a word whose fixed bits are right.
#[tactic(auto, unfolding(crate::specs::Mask::mask_of))]
pub fn mask(word: u16) -> u16
    ensures { result ≡ mask_of word }
{
    match word / 4096 {
        1 => operand_mask(word),
        4 => jsr_mask(word),
        5 => operand_mask(word),
        8 => word % 4096,
        9 => 63 - word % 64,
        12 => word / 512 % 8 * 512 + word % 64,
        15 => word / 256 % 16 * 256,
        _ => 0,
    }
}

// ADD and AND: with SR2, bits 4 and 3 are fixed.
fn operand_mask(word: u16) -> u16
    ensures { result ≡ operand_mask word }
{
    if word / 32 % 2 == 0 {
        word / 8 % 4 * 8
    } else {
        0
    }
}

// JSRR: all bits but the opcode, bit 11 and BaseR are fixed.
fn jsr_mask(word: u16) -> u16
    ensures { result ≡ jsr_mask word }
{
    if word / 2048 % 2 == 0 {
        word / 512 % 4 * 512 + word % 64
    } else {
        0
    }
}
