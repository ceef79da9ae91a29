// Addresses that the machine gives a meaning: words of the vector table, and device registers.

pub const PRIVILEGE_VECTOR: u16 = 0x0100;

pub const ILLEGAL_VECTOR: u16 = 0x0101;

pub const ACCESS_VECTOR: u16 = 0x0102;

pub const KEYBOARD_VECTOR: u16 = 0x0180;

pub const TIMER_VECTOR: u16 = 0x0181;

pub const KBSR: u16 = 0xFE00;

pub const KBDR: u16 = 0xFE02;

pub const DSR: u16 = 0xFE04;

pub const DDR: u16 = 0xFE06;

pub const TSR: u16 = 0xFE08;

pub const TIR: u16 = 0xFE0A;

pub const PSR: u16 = 0xFFFC;

pub const MCR: u16 = 0xFFFE;
