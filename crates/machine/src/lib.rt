// The LC-3 machine: its record, and the types that its definitions share with the code.
// What one step does is defined in specs/, in the order of M2 to M10; the crates `step_parts` and `step` compute it.
#![tactic(auto)]

ghost use Rattle.std.specs.Prelude.{◌≡◌, List, ℕ, ◌-◌};
ghost use Rattle.machine.specs.Record.{whole, with_devices, set_keyboard, set_mcr, set_busy, set_timer};
ghost use Rattle.machine.specs.Record.{fresh_devices, zero_devices};
ghost use Rattle.machine.specs.Rules.{rule_number};

pub mod addresses;

// The 65,536 words of memory, as a host lends them.
pub type Memory = [u16; 65536];

// What the devices keep. Code that touches no device hands it on whole. Defined bits: KBSR and the timer's status
// xC000, KBDR x00FF, MCR x8000. `busy` counts the steps for which the display is still busy, at most 8. The timer's
// count is at most its interval, and 0 only if that is.
#[repr(C)]
#[derive(Clone, Copy, Debug, Default, PartialEq, Eq)]
pub struct Devices {
    pub kbsr: u16,
    pub kbdr: u16,
    pub mcr: u16,
    pub busy: u16,
    pub timer_status: u16,
    pub timer_interval: u16,
    pub timer_count: u16,
}

// The record of M2.1, as a host keeps it. Defined bits of PSR: x8707 (M2.3).
#[repr(C)]
#[derive(Clone, Copy, Debug, Default, PartialEq, Eq)]
pub struct Machine {
    pub regs: [u16; 8],
    pub pc: u16,
    pub psr: u16,
    pub saved_ssp: u16,
    pub saved_usp: u16,
    pub devices: Devices,
    pub clock: u64,
}

// The record but its registers and clock: no array, so that it can stay in the processor's own registers during a run.
#[derive(Clone, Copy)]
pub struct Control {
    pub pc: u16,
    pub psr: u16,
    pub saved_ssp: u16,
    pub saved_usp: u16,
    pub devices: Devices,
}

// What an instruction asks for, in numbers only. It is made without a look at memory or devices.
#[derive(Clone, Copy)]
pub enum Plan {
    // Register, value, next PC. The condition codes are set from the value.
    Move(u8, u16, u16),
    // Register, value, next PC. The condition codes stay.
    Put(u8, u16, u16),
    // Next PC.
    Jump(u16),
    // Register and address; the same by a pointer at the address.
    Load(u8, u16),
    LoadBy(u8, u16),
    // Value and address; the same by a pointer at the address.
    Store(u16, u16),
    StoreBy(u16, u16),
    // TRAP, by the address of its vector word.
    Call(u16),
    // The reserved opcode.
    Illegal,
    // RTI.
    Return,
}

// An interrupt: the address of its vector word, and its priority.
#[derive(Clone, Copy)]
pub struct Interrupt {
    pub vector: u16,
    pub priority: u16,
}

// By which rule a step was made: an instruction obeyed to its end, or the entry for one of the others.
#[derive(Clone, Copy)]
pub enum Rule {
    Instruction,
    Trap,
    Privilege,
    Illegal,
    Access,
    Keyboard,
    Timer,
}

// The reason of a log.
impl From<Rule> for u16 {
    ghost from_gives = { λ rule reason. reason ≡ rule_number rule };

    fn from(rule: Rule) -> u16 {
        match rule {
            Rule::Instruction => 0,
            Rule::Trap => 1,
            Rule::Privilege => 2,
            Rule::Illegal => 3,
            Rule::Access => 4,
            Rule::Keyboard => 5,
            Rule::Timer => 6,
        }
    }
}

// A count that falls by so many, until 0.
pub fn fallen(count: u16, by: u64) -> u16
    ensures { result ≡ count - by }
{
    (count as u64).saturating_sub(by) as u16
}

impl Devices {
    // The devices of a fresh record.
    pub fn fresh() -> Devices
        ensures { result ≡ fresh_devices }
    {
        Devices {
            mcr: 0x8000,
            ..Devices::default()
        }
    }

    // Devices that are all zero.
    pub fn zero() -> Devices
        ensures { result ≡ zero_devices }
    {
        Devices::default()
    }

    // These devices with other keyboard registers.
    pub fn with_keyboard(self, kbsr: u16, kbdr: u16) -> Devices
        ensures { result ≡ set_keyboard kbsr kbdr self }
    {
        Devices { kbsr, kbdr, ..self }
    }

    // These devices with another MCR.
    pub fn with_mcr(self, mcr: u16) -> Devices
        ensures { result ≡ set_mcr mcr self }
    {
        Devices { mcr, ..self }
    }

    // These devices with another busy count of the display.
    pub fn with_busy(self, busy: u16) -> Devices
        ensures { result ≡ set_busy busy self }
    {
        Devices { busy, ..self }
    }

    // These devices with another timer.
    pub fn with_timer(self, status: u16, interval: u16, count: u16) -> Devices
        ensures { result ≡ set_timer (record { status = status; interval = interval; count = count }) self }
    {
        Devices {
            timer_status: status,
            timer_interval: interval,
            timer_count: count,
            ..self
        }
    }
}

impl Control {
    // The record with other devices.
    pub fn with_devices(self, devices: Devices) -> Control
        ensures { (regs : List ℕ) (clock : ℕ) → whole regs clock result ≡ with_devices devices (whole regs clock self) }
    {
        Control { devices, ..self }
    }

    // The record put together again.
    pub fn machine(self, regs: [u16; 8], clock: u64) -> Machine
        ensures { result ≡ whole regs clock self }
    {
        Machine {
            regs,
            pc: self.pc,
            psr: self.psr,
            saved_ssp: self.saved_ssp,
            saved_usp: self.saved_usp,
            devices: self.devices,
            clock,
        }
    }
}

// The record taken apart: all but the registers and the clock.
impl From<Machine> for Control {
    ghost from_gives = { λ m c. whole m.regs m.clock c ≡ m };

    fn from(m: Machine) -> Control {
        Control {
            pc: m.pc,
            psr: m.psr,
            saved_ssp: m.saved_ssp,
            saved_usp: m.saved_usp,
            devices: m.devices,
        }
    }
}
