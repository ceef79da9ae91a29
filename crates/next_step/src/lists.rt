// Lists of at most three addresses.
ghost use Rattle.std.specs.Prelude.{◌≡◌, cond, [], ◌∷◌, ◌+◌, min};
ghost use Rattle.machine.specs.Edition.{edition_of};
ghost use Rattle.machine.specs.Words.{before};
ghost use Rattle.machine.specs.Devices.{is_device_by};
ghost use Rattle.telling.specs.Told.{prepended, addresses_of};

use machine::addresses::{DDR, DSR, KBDR, KBSR, MCR, PSR, TIR, TSR};
use step_parts::words::before;
use telling::Addresses;

pub fn none() -> Addresses
    ensures { result ≡ addresses_of [] }
{
    Addresses {
        count: 0,
        first: 0,
        second: 0,
        third: 0,
    }
}

// Three are told.
fn one_more(count: u16) -> u16
    ensures { result ≡ min 3 (count + 1) }
{
    if count < 3 { count + 1 } else { 3 }
}

// One address more, before the others.
pub fn prepend(a: u16, l: Addresses) -> Addresses
    ensures { result ≡ prepended a l }
{
    Addresses {
        count: one_more(l.count),
        first: a,
        second: l.first,
        third: l.second,
    }
}

// xFFFC is a device register by the third edition alone.
fn is_device(second: bool, a: u16) -> bool
    ensures { result ≡ is_device_by (edition_of second) a }
{
    match a {
        KBSR | KBDR | DSR | DDR | TSR | TIR | MCR => true,
        PSR => !second,
        _ => false,
    }
}

// The lent word that a load or a store at this address uses, before the others: none behind a device register.
pub fn prepend_lent(second: bool, a: u16, l: Addresses) -> Addresses
    ensures { result ≡ cond (is_device_by (edition_of second) a) l (prepended a l) }
{
    if is_device(second, a) {
        return l;
    }
    prepend(a, l)
}

// The two words below a stack pointer, the upper one first: those of an entry.
pub fn below(sp: u16) -> Addresses
    ensures { result ≡ addresses_of (before sp ∷ before (before sp) ∷ []) }
{
    let upper = before(sp);
    let lower = before(upper);
    prepend(upper, prepend(lower, none()))
}
