// Loads and stores: the device registers at their addresses, plain words everywhere else.
ghost use Rattle.std.specs.Prelude.{◌≡◌, ℕ, ◌+◌, List, [], if◌then◌else◌, nat_eq, slice_index};
ghost use Rattle.machine.specs.Record.{whole, with_psr, with_kbsr, with_mcr, with_busy, with_timer};
ghost use Rattle.machine.specs.Edition.{edition_of, has_psr_address};
ghost use Rattle.machine.specs.Devices.{PSR, loaded_value_by, after_load, with_enable, ddr_store, stored_by};
ghost use Rattle.machine.specs.Step.{after_tick};
ghost use Rattle.machine.specs.declared.Control.{Control};
ghost use Rattle.step_parts.specs.declared.Display.TheVariants.{Unchanged};
ghost use Rattle.machine.specs.declared.Rule.TheVariants.{Instruction};
ghost use Rattle.step_parts.specs.Delivery.{effect, no_output, after, delivered, shown_by};

use crate::memory::{set_word, word_at};
use crate::{Display, Obeyed};
use machine::addresses::{DDR, DSR, KBDR, KBSR, MCR, PSR, TIR, TSR};
use machine::{Control, Memory, Rule};

// DSR: x8000, or 0 while the display is busy.
fn display_status(busy: u16) -> u16
    ensures { result ≡ (if nat_eq busy 0 then 0x8000 else 0) }
{
    if busy == 0 { 0x8000 } else { 0 }
}

// A load from xFFFC: the PSR, or the word there.
fn psr_or_word(second: bool, psr: u16, memory: &Memory) -> u16
    ensures { result ≡ (if has_psr_address (edition_of second) then psr else slice_index memory.now PSR) }
{
    if second {
        return word_at(memory, PSR);
    }
    psr
}

// The value that a load gives.
pub fn load(second: bool, c: Control, memory: &Memory, a: u16) -> u16
    ensures { (regs : List ℕ) (clock : ℕ) → result
        ≡ loaded_value_by (edition_of second) a (whole regs clock c) memory.now }
{
    match a {
        KBSR => c.devices.kbsr,
        KBDR => c.devices.kbdr,
        DSR => display_status(c.devices.busy),
        DDR => 0,
        TSR => c.devices.timer_status,
        TIR => c.devices.timer_interval,
        PSR => psr_or_word(second, c.psr, memory),
        MCR => c.devices.mcr,
        _ => word_at(memory, a),
    }
}

// The record after a load: KBDR's clears ready of the keyboard, and that of the timer's status its own.
pub fn after_load(c: Control, a: u16) -> Control
    ensures { (regs : List ℕ) (clock : ℕ) → whole regs clock result ≡ after_load a (whole regs clock c) }
{
    match a {
        KBDR => with_kbsr(c, c.devices.kbsr % 0x8000),
        TSR => with_timer(
            c,
            c.devices.timer_status % 0x8000,
            c.devices.timer_interval,
            c.devices.timer_count,
        ),
        _ => c,
    }
}

// An instruction or an entry that shows nothing.
pub fn unshown(c: Control, rule: Rule) -> Obeyed
    ensures { result ≡ record { control = c; display = Unchanged; rule = rule } }
{
    Obeyed {
        control: c,
        display: Display::Unchanged,
        rule,
    }
}

// DDR, while the display has this busy count: the byte is shown at the start of the output, if it has room. A busy
// display shows nothing. The count is handed in by itself: a function that is handed the whole record for it costs ten
// instructions a step.
fn show(busy: u16, output: &mut [u8], v: u16) -> Display
    ensures { (c : Control) (regs memory : List ℕ) (clock : ℕ) → c.devices.busy ≡ busy
        → after (record { control = c; display = result; rule = Instruction }) regs clock memory output.new
        ≡ delivered regs memory output.old (ddr_store v (whole regs clock c) memory) }
{
    if busy != 0 {
        return Display::Unchanged;
    }
    if output.len() == 0 {
        return Display::Full;
    }
    output[0] = (v % 256) as u8;
    Display::Shown
}

// The record with this KBSR, this MCR, this PSR: after a store, and after a load that clears ready.
pub fn with_kbsr(c: Control, kbsr: u16) -> Control
    ensures { (regs : List ℕ) (clock : ℕ) → whole regs clock result ≡ with_kbsr kbsr (whole regs clock c) }
{
    c.with_devices(c.devices.with_keyboard(kbsr, c.devices.kbdr))
}

// A status register that a value is stored to: bit 14, enable, is copied, and ready stays.
fn with_enable(status: u16, v: u16) -> u16
    ensures { result ≡ with_enable v status }
{
    status / 0x8000 * 0x8000 + v / 0x4000 % 2 * 0x4000
}

// The record with this timer.
pub fn with_timer(c: Control, status: u16, interval: u16, count: u16) -> Control
    ensures { (regs : List ℕ) (clock : ℕ) → whole regs clock result
        ≡ with_timer (record { status = status; interval = interval; count = count }) (whole regs clock c) }
{
    c.with_devices(c.devices.with_timer(status, interval, count))
}

fn with_mcr(c: Control, mcr: u16) -> Control
    ensures { (regs : List ℕ) (clock : ℕ) → whole regs clock result ≡ with_mcr mcr (whole regs clock c) }
{
    c.with_devices(c.devices.with_mcr(mcr))
}

fn with_psr(c: Control, psr: u16) -> Control
    ensures { (regs : List ℕ) (clock : ℕ) → whole regs clock result ≡ with_psr psr (whole regs clock c) }
{
    Control { psr, ..c }
}

// The record with this busy count of the display.
fn with_busy(c: Control, busy: u16) -> Control
    ensures { (regs : List ℕ) (clock : ℕ) → whole regs clock result ≡ with_busy busy (whole regs clock c) }
{
    c.with_devices(c.devices.with_busy(busy))
}

// The end of a step that shows nothing. The record stays as it is where the count is 0, as it is most often.
fn one_step_less(c: Control) -> Control
    ensures { (regs : List ℕ) (clock : ℕ) → whole regs (clock + 1) result ≡ after_tick [] (whole regs clock c) }
{
    let busy = c.devices.busy;
    if busy == 0 {
        return c;
    }
    with_busy(c, busy - 1)
}

// The end of a step, but for the clock, which the caller keeps: the display is busy for eight steps where a byte was to
// be shown, else for one less.
pub fn count_down(c: Control, display: Display) -> Control
    ensures { (regs : List ℕ) (clock : ℕ) → whole regs (clock + 1) result
        ≡ after_tick (shown_by display) (whole regs clock c) }
{
    match display {
        Display::Unchanged => one_step_less(c),
        Display::Shown => with_busy(c, 8),
        Display::Full => with_busy(c, 8),
    }
}

// A store to xFFFC: to the PSR, or to the word there.
fn store_psr(second: bool, c: Control, memory: &mut Memory, v: u16) -> Control
    ensures { (regs : List ℕ) (clock : ℕ) → no_output (whole regs clock result) memory.new
        ≡ effect (stored_by (edition_of second) v PSR (whole regs clock c) memory.old) }
{
    if second {
        set_word(memory, PSR, v);
        return c;
    }
    let psr = c.psr / 0x8000 * 0x8000 + v / 256 % 8 * 256 + v % 8;
    with_psr(c, psr)
}

pub fn store(
    second: bool,
    c: Control,
    memory: &mut Memory,
    output: &mut [u8],
    v: u16,
    a: u16,
) -> Obeyed
    ensures { (regs : List ℕ) (clock : ℕ) → after result regs clock memory.new output.new
        ≡ delivered regs memory.old output.old
        (stored_by (edition_of second) v a (whole regs clock c) memory.old) }
{
    match a {
        KBSR => unshown(
            with_kbsr(c, with_enable(c.devices.kbsr, v)),
            Rule::Instruction,
        ),
        KBDR | DSR => unshown(c, Rule::Instruction),
        DDR => {
            let display = show(c.devices.busy, output, v);
            Obeyed {
                control: c,
                display,
                rule: Rule::Instruction,
            }
        }
        TSR => {
            let status = with_enable(c.devices.timer_status, v);
            unshown(
                with_timer(c, status, c.devices.timer_interval, c.devices.timer_count),
                Rule::Instruction,
            )
        }
        TIR => unshown(
            with_timer(c, c.devices.timer_status, v, v),
            Rule::Instruction,
        ),
        PSR => unshown(store_psr(second, c, memory, v), Rule::Instruction),
        MCR => {
            let mcr = v / 0x8000 * 0x8000;
            unshown(with_mcr(c, mcr), Rule::Instruction)
        }
        _ => {
            set_word(memory, a, v);
            unshown(c, Rule::Instruction)
        }
    }
}
