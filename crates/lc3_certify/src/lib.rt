// The test of any class's monitor for hosts in C and Rust. The call accepts every argument.
#![tactic(auto)]

ghost use Rattle.std.specs.Prelude.{◌≡◌};
ghost use Rattle.findings.specs.Finding.{certify_of};

use findings::Certified;

pub fn lc3_certify(
    memory: &[u16],
    kinds: &[u8],
    lowest: u16,
    watched: &[u16],
    ends: &[u32],
    table: &[u32],
) -> Certified
    ensures { result ≡ certify_of memory.now kinds.now lowest watched.now
        ends.now table.now }
{
    certify::certify(memory, kinds, lowest, watched, ends, table)
}
