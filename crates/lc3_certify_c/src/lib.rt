// The call of `lc3_certify`, exported to hosts in C and Rust.
#![tactic(auto)]

ghost use Rattle.std.specs.Prelude.{◌≡◌};
ghost use Rattle.findings.specs.Finding.{certify_of};

use findings::Certified;

#[unsafe(no_mangle)]
pub extern "C" fn lc3_certify(
    memory: &[u16],
    kinds: &[u8],
    lowest: u16,
    watched: &[u16],
    ends: &[u32],
    table: &[u32],
) -> Certified
    ensures { result ≡ certify_of memory.now kinds.now lowest watched.now
        ends.now table.now }
{
    lc3_certify::lc3_certify(memory, kinds, lowest, watched, ends, table)
}
