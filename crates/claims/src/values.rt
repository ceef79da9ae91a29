// What is known of a value (crates/sitting/specs/Values.antt).
ghost use Rattle.std.specs.Prelude.{◌≡◌};
ghost use Rattle.sitting.specs.Values.{forget, implies, sum_with, sum_of, and_with, and_of, not_of};
ghost use Rattle.claims.specs.Encoding.{value_of};
ghost use Rattle.claims.specs.Decoded.{known};

use step_parts::words::{bit_and, complement, sum};

#[derive(Clone, Copy, PartialEq, Eq)]
pub enum Known {
    Unset,
    Any,
    Is(u16),
    High,
    Low,
    Sum(u16),
    Allowed,
}

// A number of the table: its kind times 65,536, and its number.
impl From<u32> for Known {
    ghost from_gives = { λ n v. known v ≡ value_of n };

    #[tactic(auto, unfolding(crate::specs::Encoding::value_of, sitting::specs::Values::value_by))]
    fn from(n: u32) -> Known {
        let number = (n % 65536) as u16;
        match n / 65536 {
            0 => Known::Unset,
            1 => Known::Any,
            2 => Known::Is(number),
            3 => Known::High,
            4 => Known::Low,
            5 => Known::Sum(number),
            _ => Known::Allowed,
        }
    }
}

// And back.
impl From<Known> for u32 {
    ghost from_gives = { λ v n. value_of n ≡ known v };

    #[tactic(auto, unfolding(crate::specs::Encoding::value_of, sitting::specs::Values::value_by))]
    fn from(v: Known) -> u32 {
        match v {
            Known::Unset => 0,
            Known::Any => 65536,
            Known::Is(number) => 2 * 65536 + u32::from(number),
            Known::High => 3 * 65536,
            Known::Low => 4 * 65536,
            Known::Sum(number) => 5 * 65536 + u32::from(number),
            Known::Allowed => 6 * 65536,
        }
    }
}

// The value of the first number says all that the value of the second says: of a known word, or R0 plus one, only the
// same number does.
pub fn says_as_much(v: u32, w: u32) -> bool
    ensures { result ≡ implies (value_of v) (value_of w) }
{
    v == w
        || match Known::from(w) {
            Known::Is(_) | Known::Sum(_) => false,
            value => Known::from(v).says_all(value),
        }
}

impl Known {
    // The first value says all that the second says.
    pub fn says_all(self, w: Known) -> bool
        ensures { result ≡ implies (known self) (known w) }
    {
        match w {
            Known::Unset => true,
            Known::Any => self != Known::Unset,
            _ => self == w,
        }
    }

    // What is left of a value where R0 changes: of R0's sums, nothing.
    #[tactic(auto, unfolding(sitting::specs::Values::forget))]
    pub fn forgotten(self) -> Known
        ensures { known result ≡ forget (known self) }
    {
        match self {
            Known::Sum(_) => Known::Any,
            _ => self,
        }
    }

    // A value plus a number; `first` where it is R0's.
    #[tactic(auto, unfolding(sitting::specs::Values::sum_with))]
    pub fn sum_with(self, first: bool, d: u16) -> Known
        ensures { known result ≡ sum_with first (known self) d }
    {
        match self {
            Known::Is(n) => Known::Is(sum(n, d)),
            Known::Sum(n) => Known::Sum(sum(n, d)),
            _ if first => Known::Sum(d),
            _ => Known::Any,
        }
    }

    // The sum of two values: known where the second is.
    #[tactic(auto, unfolding(sitting::specs::Values::sum_of))]
    pub fn sum_of(self, first: bool, w: Known) -> Known
        ensures { known result ≡ sum_of first (known self) (known w) }
    {
        match w {
            Known::Is(d) => self.sum_with(first, d),
            _ => Known::Any,
        }
    }

    // A value and a number, bit by bit.
    #[tactic(auto, unfolding(sitting::specs::Values::and_with))]
    pub fn and_with(self, d: u16) -> Known
        ensures { known result ≡ and_with (known self) d }
    {
        match self {
            Known::Is(n) => Known::Is(bit_and(n, d)),
            _ if d == 0 => Known::Is(0),
            _ => Known::Any,
        }
    }

    #[tactic(auto, unfolding(sitting::specs::Values::and_of))]
    pub fn and_of(self, w: Known) -> Known
        ensures { known result ≡ and_of (known self) (known w) }
    {
        match w {
            Known::Is(d) => self.and_with(d),
            _ => Known::Any,
        }
    }

    #[tactic(auto, unfolding(sitting::specs::Values::not_of))]
    pub fn not_of(self) -> Known
        ensures { known result ≡ not_of (known self) }
    {
        match self {
            Known::Is(n) => Known::Is(complement(n)),
            _ => Known::Any,
        }
    }
}
