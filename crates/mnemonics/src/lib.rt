// Lines by their operands. Each function writes a whole line: the mnemonic, the operands in the book's order, the line
// feed. Those that differ in the number of operands are no function over a slice of them: whoever calls it would need a
// local array, and no function that puts a line has one (M20.2).
#![tactic(auto)]

ghost use Rattle.std.specs.Prelude.{[], ◌∷◌, ◌++◌, ◌<◌};
ghost use Rattle.text.specs.Characters.{line_feed};
ghost use Rattle.text.specs.Operands.{register, signed_number};
ghost use Rattle.mnemonics.specs.Statement.{statement, code, fill_line, trap_line, branch_line};
ghost use Rattle.text.specs.Writing.{Fits, Wrote};

use text::characters::Writer;

// A separator and a register.
#[inline(always)]
fn put_operand(writer: &mut Writer, separator: &[u8], r: u8)
    requires { (r < 8) × Fits writer.old (separator.now ++ register r) }
    ensures { Wrote writer.old (separator.now ++ register r) writer.new }
{
    writer.put_text(separator);
    writer.put_register(r);
}

// A separator, a signed field, and the line feed.
#[inline(always)]
fn put_last_number(writer: &mut Writer, separator: &[u8], n: i16)
    requires { Fits writer.old (separator.now ++ (signed_number n ++ line_feed ∷ [])) }
    ensures { Wrote writer.old (separator.now ++ (signed_number n ++ line_feed ∷ [])) writer.new }
{
    writer.put_text(separator);
    writer.put_number(n);
    writer.put(b'\n');
}

// JMP and JSRR.
#[inline(always)]
pub fn put_one(writer: &mut Writer, mnemonic: &[u8], a: u8)
    requires { (a < 8) × Fits writer.old (statement mnemonic.now (register a ∷ [])) }
    ensures { Wrote writer.old (statement mnemonic.now (register a ∷ [])) writer.new }
{
    writer.put_text(mnemonic);
    put_operand(writer, b" ", a);
    writer.put(b'\n');
}

// NOT.
#[inline(always)]
pub fn put_two(writer: &mut Writer, mnemonic: &[u8], a: u8, b: u8)
    requires { (a < 8) × (b < 8) × Fits writer.old (statement mnemonic.now (register a ∷ register b ∷ [])) }
    ensures { Wrote writer.old (statement mnemonic.now (register a ∷ register b ∷ [])) writer.new }
{
    writer.put_text(mnemonic);
    put_operand(writer, b" ", a);
    put_operand(writer, b", ", b);
    writer.put(b'\n');
}

// ADD and AND with SR2.
#[inline(always)]
pub fn put_three(writer: &mut Writer, mnemonic: &[u8], a: u8, b: u8, c: u8)
    requires { (a < 8) × (b < 8) × (c < 8)
        × Fits writer.old (statement mnemonic.now (register a ∷ register b ∷ register c ∷ [])) }
    ensures { Wrote writer.old (statement mnemonic.now (register a ∷ register b ∷ register c ∷ [])) writer.new }
{
    writer.put_text(mnemonic);
    put_operand(writer, b" ", a);
    put_operand(writer, b", ", b);
    put_operand(writer, b", ", c);
    writer.put(b'\n');
}

// JSR.
#[inline(always)]
pub fn put_offset(writer: &mut Writer, mnemonic: &[u8], n: i16)
    requires { Fits writer.old (statement mnemonic.now (signed_number n ∷ [])) }
    ensures { Wrote writer.old (statement mnemonic.now (signed_number n ∷ [])) writer.new }
{
    writer.put_text(mnemonic);
    put_last_number(writer, b" ", n);
}

// LD, LDI, LEA, ST and STI.
#[inline(always)]
pub fn put_one_offset(writer: &mut Writer, mnemonic: &[u8], a: u8, n: i16)
    requires { (a < 8) × Fits writer.old (statement mnemonic.now (register a ∷ signed_number n ∷ [])) }
    ensures { Wrote writer.old (statement mnemonic.now (register a ∷ signed_number n ∷ [])) writer.new }
{
    writer.put_text(mnemonic);
    put_operand(writer, b" ", a);
    put_last_number(writer, b", ", n);
}

// ADD and AND with imm5, LDR and STR.
#[inline(always)]
pub fn put_two_offset(writer: &mut Writer, mnemonic: &[u8], a: u8, b: u8, n: i16)
    requires { (a < 8) × (b < 8)
        × Fits writer.old (statement mnemonic.now (register a ∷ register b ∷ signed_number n ∷ [])) }
    ensures { Wrote writer.old (statement mnemonic.now (register a ∷ register b ∷ signed_number n ∷ [])) writer.new }
{
    writer.put_text(mnemonic);
    put_operand(writer, b" ", a);
    put_operand(writer, b", ", b);
    put_last_number(writer, b", ", n);
}

// TRAP.
#[inline(always)]
pub fn put_trap(writer: &mut Writer, trapvect8: u16)
    requires { (trapvect8 < 256) × Fits writer.old (trap_line trapvect8) }
    ensures { Wrote writer.old (trap_line trapvect8) writer.new }
{
    writer.put_text(b"TRAP x");
    writer.put_hex(trapvect8 as u8);
    writer.put(b'\n');
}

// A word as data.
#[inline(always)]
pub fn put_fill(writer: &mut Writer, word: u16)
    requires { Fits writer.old (fill_line word) }
    ensures { Wrote writer.old (fill_line word) writer.new }
{
    writer.put_text(b".FILL x");
    writer.put_hex((word / 256) as u8);
    writer.put_hex((word % 256) as u8);
    writer.put(b'\n');
}

// The letter of a condition code that is tested.
#[inline(always)]
fn put_code(writer: &mut Writer, bit: u8, letter: u8)
    requires { Fits writer.old (code bit letter) }
    ensures { Wrote writer.old (code bit letter) writer.new }
{
    if bit == 1 {
        writer.put(letter);
    }
}

// BR with those of n, z, p that it tests.
#[inline(always)]
pub fn put_branch(writer: &mut Writer, mask: u8, n: i16)
    requires { Fits writer.old (branch_line mask n) }
    ensures { Wrote writer.old (branch_line mask n) writer.new }
{
    writer.put_text(b"BR");
    put_code(writer, mask / 4 % 2, b'n');
    put_code(writer, mask / 2 % 2, b'z');
    put_code(writer, mask % 2, b'p');
    put_last_number(writer, b" ", n);
}
