// The record that an accepted start answers (M11.1).
ghost use Rattle.std.specs.Prelude.{◌≡◌};
ghost use Rattle.run.specs.Fresh.{fresh_of};

use machine::{Devices, Machine};

// A fresh record: R6 is the current mode's stack pointer, and the other mode's is saved.
#[tactic(auto, unfolding(run::specs::Fresh::fresh_of))]
pub fn fresh(pc: u16, user: bool, stack: u16) -> Machine
    ensures { result ≡ fresh_of pc user stack }
{
    let supervisor = Machine {
        regs: [0, 0, 0, 0, 0, 0, 0x3000, 0],
        pc,
        psr: 0x0002,
        saved_ssp: 0,
        saved_usp: stack,
        devices: Devices::fresh(),
        clock: 0,
    };
    if !user {
        return supervisor;
    }
    Machine {
        regs: [0, 0, 0, 0, 0, 0, stack, 0],
        psr: 0x8002,
        saved_ssp: 0x3000,
        saved_usp: 0,
        ..supervisor
    }
}
