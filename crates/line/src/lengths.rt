// How long the line of a word is, straight from the word, by its opcode: no output is needed for it.
ghost use Rattle.std.specs.Prelude.{◌≡◌, List, ℕ, ◌≤◌, length};
ghost use Rattle.line.specs.Line.{line_of};
ghost use Rattle.line.specs.Shapes.{proper_line, relative_line, based_line, operate_line, br_line, call_line};
ghost use Rattle.line.specs.Shapes.{jump_line};

use text::operands::number_length;
use word::fields::{bits8to6, bits11to9, extend};
use word::masks::mask;

// A word with wrong fixed bits is data.
pub fn line_length(word: u16) -> usize
    ensures { result ≡ length (line_of word) }
{
    if mask(word) == 0 {
        proper_length(word)
    } else {
        12
    }
}

// By the opcode, where the fixed bits are right.
fn proper_length(word: u16) -> usize
    ensures { result ≡ length (proper_line word) }
{
    match word / 4096 {
        0 => br_length(word),
        1 => operate_length(word),
        2 => relative_length(word, 2),
        3 => relative_length(word, 2),
        4 => call_length(word),
        5 => operate_length(word),
        6 => based_length(word),
        7 => based_length(word),
        8 => 4,
        9 => 11,
        10 => relative_length(word, 3),
        11 => relative_length(word, 3),
        12 => jump_length(word),
        13 => 12,
        14 => relative_length(word, 3),
        _ => 9,
    }
}

// LD, LDI, LEA, ST and STI, with the mnemonic's letters.
fn relative_length(word: u16, letters: usize) -> usize
    requires { letters ≤ 3 }
    ensures { (mnemonic : List ℕ) → length mnemonic ≡ letters → result ≡ length (relative_line mnemonic word) }
{
    number_length(extend(word, 256)) + 6 + letters
}

// LDR and STR.
fn based_length(word: u16) -> usize
    ensures { (mnemonic : List ℕ) → length mnemonic ≡ 3 → result ≡ length (based_line mnemonic word) }
{
    number_length(extend(word, 32)) + 13
}

// ADD and AND.
fn operate_length(word: u16) -> usize
    ensures { (mnemonic : List ℕ) → length mnemonic ≡ 3 → result ≡ length (operate_line mnemonic word) }
{
    if word / 32 % 2 == 0 {
        15
    } else {
        number_length(extend(word, 16)) + 13
    }
}

// BR.
fn br_length(word: u16) -> usize
    ensures { result ≡ length (br_line word) }
{
    let codes = bits11to9(word);
    if codes == 0 {
        return 12;
    }
    let letters = codes / 4 % 2 + codes / 2 % 2 + codes % 2;
    number_length(extend(word, 256)) + 4 + letters as usize
}

// JSRR and JSR.
fn call_length(word: u16) -> usize
    ensures { result ≡ length (call_line word) }
{
    if word / 2048 % 2 == 0 {
        8
    } else {
        number_length(extend(word, 1024)) + 5
    }
}

// RET and JMP.
fn jump_length(word: u16) -> usize
    ensures { result ≡ length (jump_line word) }
{
    if bits8to6(word) == 7 { 4 } else { 7 }
}
