// Access control.
ghost use Rattle.std.specs.Prelude.{◌≡◌, ◌&&◌};
ghost use Rattle.machine.specs.Psr.{in_user_mode};
ghost use Rattle.machine.specs.Edition.{edition_of};
ghost use Rattle.machine.specs.Protection.{privileged, denied_by};

// A privileged address in User mode: that mode's own are x3000 to xFDFF.
#[tactic(auto, unfolding(machine::specs::Psr::in_user_mode, machine::specs::Protection::privileged))]
fn is_out_of_reach(psr: u16, a: u16) -> bool
    ensures { result ≡ (in_user_mode psr && privileged a) }
{
    if psr < 0x8000 {
        return false;
    }
    match a {
        0..=0x2FFF => true,
        0xFE00..=0xFFFF => true,
        _ => false,
    }
}

pub fn is_denied(second: bool, psr: u16, a: u16) -> bool
    ensures { result ≡ denied_by (edition_of second) psr a }
{
    if second {
        return false;
    }
    is_out_of_reach(psr, a)
}
