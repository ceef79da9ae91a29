// The line of a word put at a place of the output: each character goes straight to its place.
ghost use Rattle.text.specs.Placing.{Room, Put};
ghost use Rattle.text.specs.Writing.{Fits, Wrote};
ghost use Rattle.line.specs.Line.{line_of};
ghost use Rattle.line.specs.Shapes.{proper_line, relative_line, based_line, operate_line};
ghost use Rattle.line.specs.Shapes.{br_line, call_line, jump_line, not_line};

use mnemonics::{
    put_branch, put_fill, put_offset, put_one, put_one_offset, put_three, put_trap, put_two,
    put_two_offset,
};
use text::characters::Writer;
use word::fields::{bits2to0, bits8to6, bits11to9, extend};
use word::masks::mask;

// The line of a word. The place is passed, and no writer: one that is made here stays in registers, and one that is
// handed in is kept in memory, where a line took 23 instructions more.
pub fn put_line(output: &mut [u8], at: usize, word: u16) -> usize
    requires { Room at (line_of word) output.old }
    ensures { Put at (line_of word) output.old result output.new }
{
    let mut writer = Writer { output, at };
    put_word(&mut writer, word);
    writer.at
}

// A word with wrong fixed bits is data.
fn put_word(writer: &mut Writer, word: u16)
    requires { Fits writer.old (line_of word) }
    ensures { Wrote writer.old (line_of word) writer.new }
{
    if mask(word) == 0 {
        put_proper(writer, word);
    } else {
        put_fill(writer, word);
    }
}

// By the opcode, where the fixed bits are right.
fn put_proper(writer: &mut Writer, word: u16)
    requires { Fits writer.old (proper_line word) }
    ensures { Wrote writer.old (proper_line word) writer.new }
{
    match word / 4096 {
        0 => put_br(writer, word),
        1 => put_operate(writer, b"ADD", word),
        2 => put_relative(writer, b"LD", word),
        3 => put_relative(writer, b"ST", word),
        4 => put_call(writer, word),
        5 => put_operate(writer, b"AND", word),
        6 => put_based(writer, b"LDR", word),
        7 => put_based(writer, b"STR", word),
        8 => writer.put_text(b"RTI\n"),
        9 => put_not(writer, word),
        10 => put_relative(writer, b"LDI", word),
        11 => put_relative(writer, b"STI", word),
        12 => put_jump(writer, word),
        13 => put_fill(writer, word),
        14 => put_relative(writer, b"LEA", word),
        _ => put_trap(writer, word % 256),
    }
}

// LD, LDI, LEA, ST and STI.
#[inline(always)]
fn put_relative(writer: &mut Writer, mnemonic: &[u8], word: u16)
    requires { Fits writer.old (relative_line mnemonic.now word) }
    ensures { Wrote writer.old (relative_line mnemonic.now word) writer.new }
{
    put_one_offset(writer, mnemonic, bits11to9(word), extend(word, 256));
}

// LDR and STR.
#[inline(always)]
fn put_based(writer: &mut Writer, mnemonic: &[u8], word: u16)
    requires { Fits writer.old (based_line mnemonic.now word) }
    ensures { Wrote writer.old (based_line mnemonic.now word) writer.new }
{
    put_two_offset(
        writer,
        mnemonic,
        bits11to9(word),
        bits8to6(word),
        extend(word, 32),
    );
}

// ADD and AND.
#[inline(always)]
fn put_operate(writer: &mut Writer, mnemonic: &[u8], word: u16)
    requires { Fits writer.old (operate_line mnemonic.now word) }
    ensures { Wrote writer.old (operate_line mnemonic.now word) writer.new }
{
    if word / 32 % 2 == 0 {
        put_three(
            writer,
            mnemonic,
            bits11to9(word),
            bits8to6(word),
            bits2to0(word),
        );
    } else {
        put_two_offset(
            writer,
            mnemonic,
            bits11to9(word),
            bits8to6(word),
            extend(word, 16),
        );
    }
}

// A BR that tests nothing is data.
#[inline(always)]
fn put_br(writer: &mut Writer, word: u16)
    requires { Fits writer.old (br_line word) }
    ensures { Wrote writer.old (br_line word) writer.new }
{
    let codes = bits11to9(word);
    if codes == 0 {
        put_fill(writer, word);
    } else {
        put_branch(writer, codes, extend(word, 256));
    }
}

// JSRR and JSR.
#[inline(always)]
fn put_call(writer: &mut Writer, word: u16)
    requires { Fits writer.old (call_line word) }
    ensures { Wrote writer.old (call_line word) writer.new }
{
    if word / 2048 % 2 == 0 {
        put_one(writer, b"JSRR", bits8to6(word));
    } else {
        put_offset(writer, b"JSR", extend(word, 1024));
    }
}

// JMP R7 is RET.
#[inline(always)]
fn put_jump(writer: &mut Writer, word: u16)
    requires { Fits writer.old (jump_line word) }
    ensures { Wrote writer.old (jump_line word) writer.new }
{
    let base = bits8to6(word);
    if base == 7 {
        writer.put_text(b"RET\n");
    } else {
        put_one(writer, b"JMP", base);
    }
}

// NOT.
#[inline(always)]
fn put_not(writer: &mut Writer, word: u16)
    requires { Fits writer.old (not_line word) }
    ensures { Wrote writer.old (not_line word) writer.new }
{
    put_two(writer, b"NOT", bits11to9(word), bits8to6(word));
}
