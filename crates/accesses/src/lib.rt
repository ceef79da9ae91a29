// What a load or a store of a monitor leads to, from what is known before it (crates/sitting/specs/Test.antt). Each
// function answers an address, or none where the instruction may not be obeyed.
#![tactic(auto)]

ghost use Rattle.std.specs.Prelude.{◌≡◌, ◌||◌, List};
ghost use Rattle.machine.specs.Devices.{is_device};
ghost use Rattle.sitting.specs.Test.{Row, cell_at, is_loadable, loaded_from, loads_at, loads_by, loads_through, is_own};
ghost use Rattle.sitting.specs.Test.{is_free_stack, is_stack, stores_at, stores_by, stores_through};
ghost use Rattle.claims.specs.Decoded.{known, known_state, claim_by, claim_in};
ghost use Rattle.accesses.specs.Leads.{Leads};

use claims::Claim;
use claims::cells::Cell;
use claims::states::State;
use claims::values::Known;
use machine::addresses::{DDR, DSR, KBDR, KBSR, MCR, PSR, TIR, TSR};
use step_parts::words::next;
use word::fields::{offset, word_of};

#[tactic(auto, unfolding(machine::specs::Devices::is_device_by))]
fn is_device(a: u16) -> bool
    ensures { result ≡ is_device a }
{
    matches!(a, KBSR | KBDR | DSR | DDR | TSR | TIR | PSR | MCR)
}

// What a load at a gives.
#[tactic(auto, unfolding(sitting::specs::Test::loaded_from, sitting::specs::Test::from_cell))]
fn loaded_from(t: &State, c: &Claim, a: u16) -> Known
    ensures { (rows : List Row) → known result ≡ loaded_from (claim_by c.now rows) a (known_state t.now) }
{
    if is_device(a) {
        return Known::Any;
    }
    match c.cell_at(a) {
        Cell::Fixed(w) => Known::Is(w),
        Cell::Hidden if a == 0x2FFF => Known::High,
        _ => t.watched_at(c.watched, usize::from(a)),
    }
}

#[tactic(auto, unfolding(sitting::specs::Test::is_stack))]
fn is_stack(lowest: u16, a: u16) -> bool
    ensures { result ≡ is_stack lowest a }
{
    lowest <= a && a < 0x3000
}

// A routine may load from a: from the monitor's words, its stack, or a device register.
#[tactic(auto, unfolding(sitting::specs::Test::is_loadable, sitting::specs::Test::is_hidden))]
fn is_loadable(c: &Claim, a: u16) -> bool
    ensures { (rows : List Row) → result ≡ is_loadable (claim_by c.now rows) a }
{
    c.cell_at(a) != Cell::Hidden || is_stack(c.lowest, a) || is_device(a)
}

// A load at a known address: LD, and LDR and LDI where the address is known.
#[tactic(auto, unfolding(sitting::specs::Test::loads_at))]
pub fn loads_at(t: &mut State, c: &Claim, pc: u16, r: u8, a: u16) -> Option<u16>
    ensures { Leads (claim_by c.now) result (known_state t.new) (λ c. loads_at c pc r a (known_state t.old)) }
{
    if !is_loadable(c, a) {
        return None;
    }
    let v = loaded_from(t, c, a);
    t.move_to(r, v);
    Some(next(pc))
}

// LDR: at a base register and an offset.
#[tactic(auto, unfolding(sitting::specs::Test::loads_by))]
pub fn loads_by(t: &mut State, c: &Claim, pc: u16, r: u8, b: Known, n: i16) -> Option<u16>
    ensures { Leads (claim_by c.now) result (known_state t.new)
        (λ c. loads_by c (known b) pc r n (known_state t.old)) }
{
    match b {
        Known::Is(b) => loads_at(t, c, pc, r, offset(b, n)),
        Known::Allowed if word_of(n) == 0 => {
            t.move_to(r, Known::Any);
            Some(next(pc))
        }
        _ => None,
    }
}

// LDI: the pointer is a word that never changes.
#[tactic(auto, unfolding(sitting::specs::Test::loads_through))]
pub fn loads_through(t: &mut State, c: &Claim, pc: u16, r: u8, a: u16) -> Option<u16>
    ensures { Leads (claim_by c.now) result (known_state t.new)
        (λ c. loads_through c pc r (cell_at c.cells a) (known_state t.old)) }
{
    match c.cell_at(a) {
        Cell::Fixed(pointer) => loads_at(t, c, pc, r, pointer),
        _ => None,
    }
}

// A routine may store to a: to the monitor's own words, or the stack below the caller's PSR.
#[tactic(auto, unfolding(sitting::specs::Test::is_own, sitting::specs::Test::is_free_stack))]
fn is_storable(c: &Claim, a: u16) -> bool
    ensures { result ≡ is_own (cell_at (claim_in c.now).cells a) || is_free_stack c.now.lowest a }
{
    c.cell_at(a) == Cell::Own || (c.lowest <= a && a < 0x2FFF)
}

// A store at a known address: ST, and STR and STI where the address is known.
#[tactic(auto, unfolding(sitting::specs::Test::stores_at, sitting::specs::Test::remember))]
pub fn stores_at(t: &mut State, c: &Claim, pc: u16, v: Known, a: u16) -> Option<u16>
    ensures { Leads (claim_by c.now) result (known_state t.new)
        (λ c. stores_at c pc (known v) a (known_state t.old)) }
{
    if a == DDR || a == MCR {
        return Some(next(pc));
    }
    if !is_storable(c, a) {
        return None;
    }
    t.remember_at(c.watched, a, v);
    Some(next(pc))
}

// STR: at a base register and an offset.
#[tactic(auto, unfolding(sitting::specs::Test::stores_by))]
pub fn stores_by(t: &mut State, c: &Claim, pc: u16, b: Known, v: Known, n: i16) -> Option<u16>
    ensures { Leads (claim_by c.now) result (known_state t.new)
        (λ c. stores_by c (known b) pc (known v) n (known_state t.old)) }
{
    match b {
        Known::Is(b) => stores_at(t, c, pc, v, offset(b, n)),
        Known::Allowed if word_of(n) == 0 => Some(next(pc)),
        _ => None,
    }
}

// STI: the pointer is a word that never changes.
#[tactic(auto, unfolding(sitting::specs::Test::stores_through))]
pub fn stores_through(t: &mut State, c: &Claim, pc: u16, v: Known, a: u16) -> Option<u16>
    ensures { Leads (claim_by c.now) result (known_state t.new)
        (λ c. stores_through c pc (known v) (cell_at c.cells a) (known_state t.old)) }
{
    match c.cell_at(a) {
        Cell::Fixed(pointer) => stores_at(t, c, pc, v, pointer),
        _ => None,
    }
}
