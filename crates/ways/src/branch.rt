// BR: what it leads to by what is known of the codes.
ghost use Rattle.std.specs.Prelude.{◌≡◌, cond, eqb, not, List, ℕ};
ghost use Rattle.machine.specs.Words.{word_and};
ghost use Rattle.machine.specs.Psr.{codes_of};
ghost use Rattle.sitting.specs.Test.{is_above, is_below, where_taken, where_not_taken, refined_if, either_way};
ghost use Rattle.sitting.specs.Test.{accepts, branches};
ghost use Rattle.sitting.specs.Values.{low, sum};
ghost use Rattle.claims.specs.Encoding.{claim_of};
ghost use Rattle.claims.specs.Decoded.{known_state, claim_in};

use claims::Claim;
use claims::states::State;
use claims::values::Known;
use step_parts::words::bit_and;

#[tactic(auto, unfolding(machine::specs::Psr::codes_of))]
fn codes_of(v: u16) -> u16
    ensures { result ≡ codes_of v }
{
    match v {
        0 => 2,
        1..0x8000 => 1,
        _ => 4,
    }
}

#[tactic(auto, unfolding(sitting::specs::Test::is_above))]
fn is_above(n: u16) -> bool
    ensures { result ≡ is_above n }
{
    (0x0200..=0x5000).contains(&n)
}

#[tactic(auto, unfolding(sitting::specs::Test::is_below))]
fn is_below(n: u16) -> bool
    ensures { result ≡ is_below n }
{
    (0x8200..=0xD000).contains(&n)
}

// What BRn and BRzp tell of R0 where they are taken, and where not.
#[tactic(auto, unfolding(sitting::specs::Test::where_taken))]
fn where_taken(mask: u8, n: u16) -> bool
    ensures { result ≡ where_taken mask n }
{
    match mask {
        4 => is_above(n),
        3 => is_below(n),
        _ => false,
    }
}

#[tactic(auto, unfolding(sitting::specs::Test::where_not_taken))]
fn where_not_taken(mask: u8, n: u16) -> bool
    ensures { result ≡ where_not_taken mask n }
{
    match mask {
        4 => is_below(n),
        3 => is_above(n),
        _ => false,
    }
}

#[tactic(auto, unfolding(sitting::specs::Test::either_way, sitting::specs::Test::accepts))]
fn either_way(s: &State, c: &Claim, mask: u8, there: u16, here: u16) -> bool
    ensures { (memory kinds : List ℕ) (lowest : ℕ) (watched : List ℕ) → result ≡ either_way
        (claim_of memory kinds lowest watched c.now.ends.now c.now.table.now) mask there here (known_state s.now) }
{
    c.accepts(there, s) && (mask == 7 || c.accepts(here, s))
}

// On a value below x8000.
#[tactic(auto, unfolding(sitting::specs::Test::branches, sitting::specs::Test::accepts))]
fn branches_on_low(s: &State, c: &Claim, mask: u8, there: u16, here: u16) -> bool
    ensures { (memory kinds : List ℕ) (lowest : ℕ) (watched : List ℕ) → result ≡ branches
        (claim_of memory kinds lowest watched c.now.ends.now c.now.table.now) low mask there here (known_state s.now) }
{
    match mask {
        3 => c.accepts(there, s),
        4 => c.accepts(here, s),
        _ => either_way(s, c, mask, there, here),
    }
}

// Where R0 is an address of User mode's, or nothing more is known of it.
#[tactic(auto, using(claims::proofs::StateLaws::known_set,), unfolding(sitting::specs::Test::refined_if,),)]
fn accepts_refined(s: &State, c: &Claim, b: bool, pc: u16) -> bool
    ensures { result ≡ accepts (claim_in c.now) pc (refined_if b (known_state s.now)) }
{
    if !b {
        return c.accepts(pc, s);
    }
    let mut refined = *s;
    refined.regs[0] = u32::from(Known::Allowed);
    c.accepts(pc, &refined)
}

#[tactic(auto, unfolding(sitting::specs::Test::branches))]
fn branches_on_sum(s: &State, c: &Claim, n: u16, mask: u8, there: u16, here: u16) -> bool
    ensures { result ≡ branches (claim_in c.now) (sum n) mask there here (known_state s.now) }
{
    accepts_refined(s, c, where_taken(mask, n), there)
        && (mask == 7 || accepts_refined(s, c, where_not_taken(mask, n), here))
}

// Where a branch leads by codes that are known.
fn leads_by(mask: u8, codes: u16, there: u16, here: u16) -> u16
    ensures { result ≡ cond (not (eqb (word_and mask codes) 0)) there here }
{
    if bit_and(u16::from(mask), codes) != 0 {
        there
    } else {
        here
    }
}

// A branch with this mask: the addresses where it is taken and where it is not.
#[tactic(auto, unfolding(sitting::specs::Test::branches, sitting::specs::Test::accepts))]
pub fn branches(s: &State, c: &Claim, mask: u8, there: u16, here: u16) -> bool
    ensures { (memory kinds : List ℕ) (lowest : ℕ) (watched : List ℕ) → result ≡ branches
        (claim_of memory kinds lowest watched c.now.ends.now c.now.table.now)
        (known_state s.now).codes mask there here (known_state s.now) }
{
    match Known::from(s.codes) {
        Known::Unset => c.accepts(there, s) && c.accepts(here, s),
        Known::Is(n) => c.accepts(leads_by(mask, codes_of(n), there, here), s),
        Known::High => c.accepts(leads_by(mask, 4, there, here), s),
        Known::Low => branches_on_low(s, c, mask, there, here),
        Known::Sum(n) => branches_on_sum(s, c, n, mask, there, here),
        Known::Any | Known::Allowed => either_way(s, c, mask, there, here),
    }
}
