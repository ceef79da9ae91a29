// The interrupt to take.
ghost use Rattle.std.specs.Prelude.{◌≡◌, ℕ, List};
ghost use Rattle.machine.specs.Record.{whole};
ghost use Rattle.machine.specs.Interrupts.{may_interrupt, pending_interrupt};

use machine::addresses::{KEYBOARD_VECTOR, TIMER_VECTOR};
use machine::{Control, Interrupt};

const TIMER_INTERRUPT: Interrupt = Interrupt {
    vector: TIMER_VECTOR,
    priority: 6,
};

const KEYBOARD_INTERRUPT: Interrupt = Interrupt {
    vector: KEYBOARD_VECTOR,
    priority: 4,
};

// A device with this status and this priority may interrupt: ready and enable are both set, and the processor's
// priority is lower.
fn may_interrupt(status: u16, priority: u16, psr: u16) -> bool
    ensures { result ≡ may_interrupt status priority psr }
{
    if status < 0xC000 {
        return false;
    }
    psr / 256 % 8 < priority
}

// The timer's, if its ready and enable are both set and the priority is below 6; else the keyboard's, below 4. The
// keyboard's tests are written out: by `may_interrupt` too they take two instructions a step more.
pub fn pending_interrupt(c: Control) -> Option<Interrupt>
    ensures { (regs : List ℕ) (clock : ℕ) → result ≡ pending_interrupt (whole regs clock c) }
{
    if may_interrupt(c.devices.timer_status, 6, c.psr) {
        return Some(TIMER_INTERRUPT);
    }
    if c.devices.kbsr < 0xC000 {
        return None;
    }
    if c.psr / 256 % 8 < 4 {
        return Some(KEYBOARD_INTERRUPT);
    }
    None
}
