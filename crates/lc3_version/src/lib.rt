// The version of the host interface, for hosts in C and Rust.
#![tactic(auto)]

ghost use Rattle.std.specs.Prelude.{◌≡◌};
ghost use Rattle.lc3_version.specs.Version.{interface_version};

const INTERFACE_VERSION: u32 = 7;

// The version of include/fanthrig/lc3.h that this library was built for.
pub fn lc3_version() -> u32
    ensures { result ≡ interface_version }
{
    INTERFACE_VERSION
}
