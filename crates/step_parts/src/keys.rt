// The start of a step: the keys whose time is the clock arrive, in list order.
ghost use Rattle.std.specs.Prelude.{◌≡◌, ℕ, List, [], ◌∷◌, length, drop};
ghost use Rattle.machine.specs.Record.{whole};
ghost use Rattle.machine.specs.Keys.{after_keys};
ghost use Rattle.step_parts.specs.Delivery.{arrival, arrival_of};

use crate::Arrived;
use machine::Control;

// One key: KBDR takes the byte, ready is set.
pub fn press(c: Control, byte: u8) -> Control
    ensures { (regs : List ℕ) (clock : ℕ) → whole regs clock result ≡ after_keys (byte ∷ []) (whole regs clock c) }
{
    let d = c.devices;
    let kbsr = d.kbsr % 0x8000 + 0x8000;
    c.with_devices(d.with_keyboard(kbsr, byte as u16))
}

pub fn arrive(c: Control, t: u64, times: &[u64], bytes: &[u8], from: usize) -> Arrived
    requires { length times.now ≡ length bytes.now }
    ensures { (regs : List ℕ) (clock : ℕ) → arrival regs clock result
        ≡ arrival_of t (drop from times.now) (drop from bytes.now) (whole regs clock c) from }
{
    let mut n = c;
    let mut k = from;
    while k < times.len() {
        if times[k] != t {
            break;
        }
        n = press(n, bytes[k]);
        k += 1;
    }
    Arrived {
        control: n,
        keys: k,
    }
}
