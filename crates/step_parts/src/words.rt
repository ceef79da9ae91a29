// Words of 16 bits, and the registers R0 to R7.
ghost use Rattle.std.specs.Prelude.{◌≡◌, ◌+◌, ◌-◌};
ghost use Rattle.machine.specs.Words.{wrap, next, before, word_and, complement, register, with_register};

pub fn next(a: u16) -> u16
    ensures { result ≡ next a }
{
    std::num::wrapping_add_u16(a, 1)
}

pub fn before(a: u16) -> u16
    ensures { result ≡ before a }
{
    std::num::wrapping_sub_u16(a, 1)
}

pub fn sum(a: u16, b: u16) -> u16
    ensures { result ≡ wrap (a + b) }
{
    std::num::wrapping_add_u16(a, b)
}

pub fn bit_and(a: u16, b: u16) -> u16
    ensures { result ≡ word_and a b }
{
    a & b
}

pub fn complement(a: u16) -> u16
    ensures { result ≡ complement a }
{
    !a
}

// The prover knows the range of a result, not of an element of an array: so registers are read here alone.
pub fn register(regs: &[u16; 8], i: u8) -> u16
    ensures { result ≡ register regs.now i }
{
    let k = (i % 8) as usize;
    regs[k]
}

pub fn set_register(regs: &mut [u16; 8], i: u8, v: u16)
    ensures { regs.new ≡ with_register regs.old i v }
{
    let k = (i % 8) as usize;
    regs[k] = v;
}
