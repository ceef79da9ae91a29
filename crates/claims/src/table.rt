// What the table says of an address, and whether it accepts a state there.
ghost use Rattle.std.specs.Prelude.{◌≡◌, ◌+◌, ◌-◌, ◌*◌, ◌/◌, ◌≤◌, ◌<◌, min, length, take, drop};
ghost use Rattle.sitting.specs.Test.{accepts, one_covers};
ghost use Rattle.claims.specs.Encoding.{states_of, start_of};
ghost use Rattle.claims.specs.Decoded.{known_state, claim_in};

use crate::Claim;
use crate::states::State;

impl Claim<'_> {
    // The numbers of state k.
    pub fn state(&self, k: u32) -> &[u32; 17]
        requires { (k + 1) * 17 ≤ length self.now.table.now }
        ensures { result.now ≡ take 17 (drop (k * 17) self.now.table.now) }
    {
        let at = k as usize * 17;
        self.table[at..at + 17].try_into().unwrap()
    }

    // Where row j begins: where the row before it ends.
    pub fn start_of(&self, j: usize) -> u32
        requires { j < length self.now.ends.now }
        ensures { result ≡ start_of 0 self.now.ends.now j }
    {
        if j == 0 { 0 } else { self.ends[j - 1] }
    }

    // A row that ends past the table ends with it.
    pub fn end_in(&self, end: u32) -> u32
        ensures { result ≡ min end (length self.now.table.now / 17) }
    {
        let states = self.table.len() / 17;
        states.min(end as usize) as u32
    }

    // The state says all that one of these states of the table says.
    fn row_covers(&self, s: &State, start: u32, end: u32) -> bool
        requires { end * 17 ≤ length self.now.table.now }
        ensures { result ≡ one_covers (known_state s.now)
            (states_of (end - start) (drop (start * 17) self.now.table.now)) }
    {
        for k in start..end {
            if s.covers(self.state(k)) {
                return true;
            }
        }
        false
    }

    // The table knows no more at this address than the state says.
    pub fn accepts(&self, pc: u16, s: &State) -> bool
        ensures { result ≡ accepts (claim_in self.now) pc (known_state s.now) }
    {
        if pc < 0x0200 {
            return false;
        }
        let j = usize::from(pc - 0x0200);
        if j >= self.ends.len() {
            return false;
        }
        self.row_covers(s, self.start_of(j), self.end_in(self.ends[j]))
    }
}
