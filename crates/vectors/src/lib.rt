// The vectors, and the room between the monitor's words and its stack.
#![tactic(auto)]

ghost use Rattle.std.specs.Prelude.{◌≡◌, true, ◌≤◌, length, List, ℕ};
ghost use Rattle.sitting.specs.Test.{Claim as Test, Row, cell_at, accepts, on_entry, leads_in, leads_back, room_holds};
ghost use Rattle.claims.specs.Encoding.{claim_with};
ghost use Rattle.claims.specs.Decoded.{known_state, claim_in, claim_watching};
ghost use Rattle.findings.specs.Finding.{wrong_vector, wrong_interrupt, wrong_vectors};
ghost use Rattle.findings.specs.Found.{certified};

use claims::cells::Cell;
use claims::states::State;
use claims::values::Known;
use claims::{Claim, Watched};
use findings::Fault;
use machine::addresses::{KEYBOARD_VECTOR, TIMER_VECTOR};

// What is known on entry from User mode, beside as many watched words as these.
fn entry(watched: &Watched) -> State
    ensures { (c : Test) → length c.watched ≡ length watched.now → known_state result ≡ on_entry c }
{
    let any = u32::from(Known::Any);
    let mut regs = [any; 8];
    regs[6] = u32::from(Known::Is(0x2FFE));
    State {
        regs,
        codes: u32::from(Known::Unset),
        words: [any; 8],
    }
}

// The table knows no more there than what is known on entry from User mode.
fn accepts_entry(c: &Claim, w: u16) -> bool
    ensures { (lowest : ℕ) (watched : List ℕ) → length watched ≡ length c.now.watched.now → result
        ≡ accepts (claim_watching c.now lowest watched) w (on_entry (claim_watching c.now lowest watched)) }
{
    c.accepts(w, &entry(c.watched))
}

// A vector word leads to where the table knows the entry.
#[tactic(auto, unfolding(sitting::specs::Test::leads_in))]
fn leads_in(c: &Claim, a: u16) -> bool
    ensures { (lowest : ℕ) (watched : List ℕ) → length watched ≡ length c.now.watched.now → result
        ≡ leads_in (claim_watching c.now lowest watched) (cell_at (claim_in c.now).cells a) }
{
    match c.cell_at(a) {
        Cell::Fixed(w) => accepts_entry(c, w),
        _ => false,
    }
}

// The first of the vectors x0000 to x0102 that does not.
fn wrong_vector(c: &Claim) -> Result<(), Fault>
    ensures { (lowest : ℕ) (watched : List ℕ) → length watched ≡ length c.now.watched.now → certified result
        ≡ wrong_vector (claim_watching c.now lowest watched) 0x0103 }
{
    for a in 0..0x0103 {
        if !leads_in(c, a) {
            return Err(Fault::NoEntry(a));
        }
    }
    Ok(())
}

// An interrupt's vector word leads to a lone RTI.
#[tactic(auto, unfolding(sitting::specs::Test::leads_back, sitting::specs::Test::is_return))]
fn leads_back(c: &Claim, a: u16) -> bool
    ensures { (lowest : ℕ) (watched : List ℕ) → length watched ≡ length c.now.watched.now → result
        ≡ leads_back (claim_watching c.now lowest watched) (cell_at (claim_in c.now).cells a) }
{
    match c.cell_at(a) {
        Cell::Fixed(w) => accepts_entry(c, w) && c.cell_at(w) == Cell::Fixed(0x8000),
        _ => false,
    }
}

#[tactic(auto, unfolding(findings::specs::Finding::wrong_interrupt, findings::specs::Finding::unless,),)]
fn wrong_interrupt(c: &Claim, a: u16) -> Result<(), Fault>
    ensures { (lowest : ℕ) (watched : List ℕ) → length watched ≡ length c.now.watched.now → certified result
        ≡ wrong_interrupt (claim_watching c.now lowest watched) a }
{
    if !leads_back(c, a) {
        return Err(Fault::NoReturn(a));
    }
    Ok(())
}

// The first vector with which something is wrong: of traps and exceptions, of the keyboard, of the timer.
#[tactic(auto, using(findings::proofs::FindingLaws::found), unfolding(findings::specs::Finding::wrong_vectors))]
pub fn wrong_vectors(c: &Claim) -> Result<(), Fault>
    ensures { (lowest : ℕ) (watched : List ℕ) → length watched ≡ length c.now.watched.now → certified result
        ≡ wrong_vectors (claim_watching c.now lowest watched) }
{
    wrong_vector(c)?;
    wrong_interrupt(c, KEYBOARD_VECTOR)?;
    wrong_interrupt(c, TIMER_VECTOR)
}

// Four words for interrupts lie between the monitor's words and its stack, which has room for a trap's two.
#[tactic(auto, using(findings::proofs::Laws::length_cells,), unfolding(sitting::specs::Test::room_holds,),)]
pub fn has_room(c: &Claim) -> bool
    ensures by_index { (watched : List ℕ) (rows : List Row) → result
        ≡ room_holds (claim_with c.now.memory.now c.now.kinds.now c.now.lowest watched rows) }
    ensures memory_len_bound { result ≡ true → length (claim_in c.now).cells ≤ 0x3000 }
{
    let words = c.kinds.len().min(c.memory.len());
    let low = usize::from(c.lowest);
    4 <= low && words <= low - 4 && low <= 0x2FFE
}
