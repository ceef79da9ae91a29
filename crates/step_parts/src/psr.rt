// The processor status register: bit 15 User mode, bits 10 to 8 the priority, bits 2 to 0 the codes N, Z, P.
ghost use Rattle.std.specs.Prelude.{◌≡◌};
ghost use Rattle.machine.specs.Psr.{defined_psr, set_from, recoded, is_taken};

// The PSR with its codes set from a result: N is 4, Z is 2, P is 1. The sign is tested first: the other order takes
// three to four instructions more.
pub fn with_codes(psr: u16, v: u16) -> u16
    ensures { result ≡ recoded (set_from v) psr }
{
    if 0x8000 <= v {
        psr / 8 * 8 + 4
    } else if v == 0 {
        psr / 8 * 8 + 2
    } else {
        psr / 8 * 8 + 1
    }
}

// The defined bits, x8707.
pub fn defined_psr(v: u16) -> u16
    ensures { result ≡ defined_psr v }
{
    v / 0x8000 * 0x8000 + v / 256 % 8 * 256 + v % 8
}

// BR is taken if a tested code is set.
pub fn is_taken(mask: u8, psr: u16) -> bool
    ensures { result ≡ is_taken mask psr }
{
    let tested = mask as u16;
    let met = crate::words::bit_and(tested, psr % 8);
    met != 0
}
