// The rows of the table, one for each word from x0200 on.
ghost use Rattle.std.specs.Prelude.{◌≡◌, true, ◌+◌, ◌-◌, ◌*◌, ◌≤◌, ◌<◌, length, get_or, drop};
ghost use Rattle.sitting.specs.Test.{cell_at};
ghost use Rattle.claims.specs.Encoding.{states_of, row_of, start_of};
ghost use Rattle.claims.specs.Decoded.{known_cell, claim_in};
ghost use Rattle.findings.specs.Finding.{wrong_in_row, wrong_at, wrong_in_rows};
ghost use Rattle.findings.specs.Wrong.{is_fixed};
ghost use Rattle.findings.specs.Found.{certified};

use crate::state::wrong_in;
use claims::Claim;
use claims::cells::Cell;
use findings::Fault;
use word::Instruction;
use word::reading::read;

// The first of these states with which something is wrong.
#[tactic(auto, using(findings::proofs::FindingLaws::in_row))]
fn wrong_in_row(c: &Claim, pc: u16, i: Instruction, start: u32, end: u32) -> Result<(), Fault>
    requires { end * 17 ≤ length c.now.table.now }
    ensures { certified result ≡ wrong_in_row (claim_in c.now) pc i start
        (states_of (end - start) (drop (start * 17) c.now.table.now)) }
{
    for k in start..end {
        wrong_in(c, pc, i, k)?;
    }
    Ok(())
}

// What the word of row j is: one past the monitor's is secret.
#[tactic(auto, using(findings::proofs::Laws::cell_past,), unfolding(findings::specs::Wrong::is_fixed,),)]
fn cell_of_row(c: &Claim, j: usize) -> Cell
    requires { length (claim_in c.now).cells ≤ 0x3000 }
    ensures cell { known_cell result ≡ cell_at (claim_in c.now).cells (0x0200 + j) }
    ensures bound { is_fixed (known_cell result) ≡ true → j < 0x2E00 }
{
    if j >= 0x2E00 {
        return Cell::Hidden;
    }
    c.cell_at((0x0200 + j) as u16)
}

// Row j: a word that may change, or is secret, is never fetched.
fn wrong_at(c: &Claim, j: usize) -> Result<(), Fault>
    requires room { length (claim_in c.now).cells ≤ 0x3000 }
    requires in_bounds { j < length c.now.ends.now }
    ensures { certified result ≡ wrong_at (claim_in c.now) (0x0200 + j)
        (cell_at (claim_in c.now).cells (0x0200 + j))
        (start_of 0 c.now.ends.now j)
        (row_of c.now.table.now (start_of 0 c.now.ends.now j) (get_or c.now.ends.now j 0)) }
{
    let start = c.start_of(j);
    let end = c.end_in(c.ends[j]);
    match cell_of_row(c, j) {
        Cell::Fixed(w) => wrong_in_row(c, (0x0200 + j) as u16, read(w), start, end),
        _ if start < end => Err(Fault::NotFixed(0x0200 + j, start)),
        _ => Ok(()),
    }
}

// The first row with which something is wrong.
#[tactic(auto, using(findings::proofs::FindingLaws::in_rows), unfolding(claims::specs::Encoding::start_of))]
pub fn wrong_in_rows(c: &Claim) -> Result<(), Fault>
    requires { length (claim_in c.now).cells ≤ 0x3000 }
    ensures { certified result ≡ wrong_in_rows (claim_in c.now) c.now.table.now 0x0200 0 c.now.ends.now }
{
    for j in 0..c.ends.len() {
        wrong_at(c, j)?;
    }
    Ok(())
}
