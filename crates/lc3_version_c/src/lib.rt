// The call of `lc3_version`, exported to hosts in C and Rust.
#![tactic(auto)]

ghost use Rattle.std.specs.Prelude.{◌≡◌};
ghost use Rattle.lc3_version.specs.Version.{interface_version};

// The version of include/fanthrig/lc3.h that this library was built for.
#[unsafe(no_mangle)]
pub extern "C" fn lc3_version() -> u32
    ensures { result ≡ interface_version }
{
    lc3_version::lc3_version()
}
