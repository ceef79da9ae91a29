// Operands as text: registers, signed fields in decimal, and numbers in hexadecimal.
ghost use Rattle.std.specs.Prelude.{◌≡◌, ◌≤◌, ◌<◌, length};
ghost use Rattle.text.specs.Operands.{register, decimal, signed_number, hex_digit, hex_byte};
ghost use Rattle.text.specs.Placing.{Room, Put};
ghost use Rattle.text.specs.Writing.{Fits, Wrote};

use super::characters::Writer;
use word::fields::size;

impl<'a> Writer<'a> {
    // R0 to R7.
    #[inline(always)]
    pub fn put_register(&mut self, r: u8)
        requires { (r < 8) × Fits self.old (register r) }
        ensures { Wrote self.old (register r) self.new }
    {
        self.put(b'R');
        self.put(b'0' + r);
    }

    // Most significant digit first.
    #[inline(always)]
    pub fn put_decimal(&mut self, n: u16)
        requires { Fits self.old (decimal n) }
        ensures { Wrote self.old (decimal n) self.new }
    {
        self.at = put_digits(self.output, self.at, n);
    }

    // # and the number, with a minus sign below zero.
    #[inline(always)]
    pub fn put_number(&mut self, n: i16)
        requires { Fits self.old (signed_number n) }
        ensures { Wrote self.old (signed_number n) self.new }
    {
        let magnitude = size(n);
        if n < 0 {
            self.put_text(b"#-");
            self.put_decimal(magnitude + 1);
        } else {
            self.put_text(b"#");
            self.put_decimal(magnitude);
        }
    }

    // Two hexadecimal digits.
    #[inline(always)]
    pub fn put_hex(&mut self, n: u8)
        requires { Fits self.old (hex_byte n) }
        ensures { Wrote self.old (hex_byte n) self.new }
    {
        self.put(hex_digit(n / 16));
        self.put(hex_digit(n % 16));
    }
}

// The digits of n / 10, then that of n % 10; answers the place after them. It takes the place and no writer: what calls
// itself is a call when it runs, and would keep the writer in memory.
fn put_digits(output: &mut [u8], at: usize, n: u16) -> usize
    requires { Room at (decimal n) output.old }
    ensures { Put at (decimal n) output.old result output.new }
{
    if n < 10 {
        output[at] = b'0' + n as u8;
        at + 1
    } else {
        let last = put_digits(output, at, n / 10);
        output[last] = b'0' + (n % 10) as u8;
        last + 1
    }
}

// How many digits `put_decimal` writes. By `checked_ilog10` a line of a page took 2 instructions more, 108 for 106.
pub fn decimal_length(n: u16) -> usize
    ensures { result ≡ length (decimal n) }
{
    if n < 10 {
        return 1;
    }
    if n < 100 {
        return 2;
    }
    if n < 1000 {
        return 3;
    }
    if n < 10000 {
        return 4;
    }
    5
}

// How many characters `put_number` writes; few enough for any sum of lengths.
pub fn number_length(n: i16) -> usize
    ensures { (result ≡ length (signed_number n)) × (result ≤ 32771) }
{
    let magnitude = size(n);
    if n < 0 {
        decimal_length(magnitude + 1) + 2
    } else {
        decimal_length(magnitude) + 1
    }
}

// 0 to 9, then A to F.
fn hex_digit(d: u8) -> u8
    requires { d < 16 }
    ensures { result ≡ hex_digit d }
{
    if d < 10 { b'0' + d } else { b'A' + (d - 10) }
}
