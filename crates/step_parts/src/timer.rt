// The start of a step, after keys have arrived: the timer's count falls.
ghost use Rattle.std.specs.Prelude.{◌≡◌, ℕ, List};
ghost use Rattle.machine.specs.Record.{whole, with_timer};
ghost use Rattle.machine.specs.Timer.{fallen_to, after_timer};

use crate::devices::with_timer;
use machine::Control;

// The count of a timer that is on falls; at zero it sets ready and begins anew.
fn fall(c: Control, status: u16, interval: u16, count: u16) -> Control
    ensures { (regs : List ℕ) (clock : ℕ) → whole regs clock result
        ≡ with_timer (fallen_to (record { status = status; interval = interval; count = count }))
        (whole regs clock c) }
{
    if count <= 1 {
        return with_timer(c, status % 0x8000 + 0x8000, interval, interval);
    }
    with_timer(c, status, interval, count - 1)
}

// The record stays as it is where the timer is off, as it is most often.
pub fn count_down(c: Control) -> Control
    ensures { (regs : List ℕ) (clock : ℕ) → whole regs clock result ≡ after_timer (whole regs clock c) }
{
    let interval = c.devices.timer_interval;
    if interval == 0 {
        return c;
    }
    fall(c, c.devices.timer_status, interval, c.devices.timer_count)
}
