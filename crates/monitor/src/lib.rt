// What the monitor's definitions and the code of crate `installer` share. docs/monitor.lst is the monitor's listing.
// The addresses that the words x0000 to x01FF lead to.
#![tactic(auto)]

#[repr(C)]
#[derive(Clone, Copy)]
pub struct Routines {
    // TRAP x20 to x25: GETC, OUT, PUTS, IN, PUTSP, HALT.
    pub getc: u16,
    pub out: u16,
    pub puts: u16,
    pub input: u16,
    pub putsp: u16,
    pub halt: u16,
    // Every other trap.
    pub trap: u16,
    // The privilege, illegal opcode and access exceptions.
    pub exception: u16,
    // Every other word of x0100 to x01FF.
    pub interrupt: u16,
}
