// What each word of memory is: never changed, the monitor's own, or secret (crates/sitting/specs/Test.antt).
ghost use Rattle.std.specs.Prelude.{◌≡◌};
ghost use Rattle.sitting.specs.Test.{cell_at};
ghost use Rattle.claims.specs.Encoding.{cells_of};
ghost use Rattle.claims.specs.Decoded.{known_cell};

use crate::Claim;

#[derive(Clone, Copy, PartialEq, Eq)]
pub enum Cell {
    Fixed(u16),
    Own,
    Hidden,
}

impl Claim<'_> {
    // The kinds as numbers: 1 never changed, 2 the monitor's own, others secret.
    pub fn cell_at(&self, a: u16) -> Cell
        ensures { known_cell result ≡ cell_at (cells_of self.now.kinds.now self.now.memory.now) a }
    {
        let at = a as usize;
        if at >= self.kinds.len() {
            return Cell::Hidden;
        }
        if at >= self.memory.len() {
            return Cell::Hidden;
        }
        match self.kinds[at] {
            1 => Cell::Fixed(self.memory[at]),
            2 => Cell::Own,
            _ => Cell::Hidden,
        }
    }
}
