// Signed fields of an instruction word, in two's complement (M4.2).
// A field of k bits is passed as its half, 2 to the power of k - 1: it holds -half to half - 1.
ghost use Rattle.std.specs.Prelude.{◌≡◌, ◌+◌, ◌%◌, ◌<◌, ◌≤◌};
ghost use Rattle.std.specs.Int.Signed.{mag};
ghost use Rattle.word.specs.Field.{signed, bits};
ghost use Rattle.word.specs.Reading.{bits11to9, bits8to6, bits2to0};

// The places of registers in a word: DR, SR or the BR mask; SR1, SR or BaseR; SR2.
pub fn bits11to9(word: u16) -> u8
    ensures { result ≡ bits11to9 word }
{
    (word / 512 % 8) as u8
}

pub fn bits8to6(word: u16) -> u8
    ensures { result ≡ bits8to6 word }
{
    (word / 64 % 8) as u8
}

pub fn bits2to0(word: u16) -> u8
    ensures { result ≡ bits2to0 word }
{
    (word % 8) as u8
}

// The signed number in the low bits of a word: sign extension.
pub fn extend(word: u16, half: u16) -> i16
    requires { (0 < half) × (half ≤ 16384) }
    ensures { result ≡ signed half (word % (half + half)) }
{
    let field = word % (half + half);
    if field < half {
        field as i16
    } else {
        !((half + half - 1 - field) as i16)
    }
}

// The size of n: n itself where it is not negative, else -1 - n, so that -1 has the size 0.
// A field holds n exactly when the size of n is below the field's half.
pub fn size(n: i16) -> u16
    ensures { result ≡ mag n }
{
    if n < 0 { (!n) as u16 } else { n as u16 }
}

// The field that holds n: truncation.
pub fn truncate(n: i16, half: u16) -> u16
    requires { (half ≤ 16384) × (mag n < half) }
    ensures { result ≡ bits half n }
{
    let magnitude = size(n);
    if n < 0 {
        half + half - 1 - magnitude
    } else {
        magnitude
    }
}

// The word of 16 bits that a signed number is in memory and registers.
pub fn word_of(n: i16) -> u16
    ensures { result ≡ bits 32768 n }
{
    n.cast_unsigned()
}

// An address or a register plus a signed field, modulo 65,536.
pub fn offset(base: u16, n: i16) -> u16
    ensures { result ≡ (base + bits 32768 n) % 65536 }
{
    base.wrapping_add_signed(n)
}
