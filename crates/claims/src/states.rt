// What is known at an address: of R0 to R7, of the value that the codes were set from, and of the watched words.
ghost use Rattle.std.specs.Prelude.{◌≡◌, ◌==◌, length, map};
ghost use Rattle.std.specs.List.{list_all, zip, position};
ghost use Rattle.sitting.specs.Test.{covers, value_in, moved, put, held};
ghost use Rattle.sitting.specs.Values.{implies, forget};
ghost use Rattle.claims.specs.Encoding.{value_of, values_of, state_of};
ghost use Rattle.claims.specs.Changes.{forget_state, remember_in};
ghost use Rattle.claims.specs.Decoded.{known, known_state};

use crate::Watched;
use crate::values::{Known, says_as_much};

// As in the table, a value is a number, which is decoded where it is looked at: most are only compared.
#[derive(Clone, Copy)]
pub struct State {
    pub regs: [u32; 8],
    pub codes: u32,
    pub words: [u32; 8],
}

// A state of the table: 17 numbers.
impl From<&[u32; 17]> for State {
    ghost from_gives = { λ numbers s. known_state s ≡ state_of numbers.now };

    fn from(numbers: &[u32; 17]) -> State {
        State {
            regs: numbers[..8].try_into().unwrap(),
            codes: numbers[8],
            words: numbers[9..].try_into().unwrap(),
        }
    }
}

// Each of these values says all that the one in its place says.
fn say_all(values: &[u32; 8], numbers: &[u32]) -> bool
    requires { length numbers.now ≡ 8 }
    ensures { result ≡ list_all (λ p. implies (value_of p.0) (value_of p.1)) (zip values.now numbers.now) }
{
    values
        .iter()
        .zip(numbers)
        .all(|(v, n)| says_as_much(*v, *n))
}

// What is left of a value where R0 changes.
fn forgotten_in(n: u32) -> u32
    ensures { value_of result ≡ forget (value_of n) }
{
    u32::from(Known::from(n).forgotten())
}

fn forgotten(values: [u32; 8]) -> [u32; 8]
    ensures { map value_of result ≡ map forget (map value_of values) }
{
    values.map(forgotten_in)
}

// The first place at which the word at a is watched.
fn place(watched: &Watched, a: usize) -> Option<usize>
    ensures { result ≡ position (λ w. w == a) watched.now }
{
    watched.iter().position(|w| usize::from(*w) == a)
}

impl State {
    // The state says all that this state of the table says.
    #[tactic(auto, using(crate::proofs::StateLaws::covers_by))]
    pub fn covers(&self, numbers: &[u32; 17]) -> bool
        ensures { result ≡ covers (known_state self.now) (state_of numbers.now) }
    {
        say_all(&self.regs, &numbers[..8])
            && says_as_much(self.codes, numbers[8])
            && say_all(&self.words, &numbers[9..])
    }

    pub fn register(&self, r: u8) -> Known
        ensures { known result ≡ value_in (known_state self.now).regs r }
    {
        Known::from(self.regs[usize::from(r % 8)])
    }

    // R0 changes.
    fn forget(&mut self)
        ensures { known_state self.new ≡ forget_state (known_state self.old) }
    {
        self.regs = forgotten(self.regs);
        self.codes = forgotten_in(self.codes);
        self.words = forgotten(self.words);
    }

    // A register takes a value, and the codes are kept.
    pub fn put_in(&mut self, r: u8, v: Known)
        ensures { known_state self.new ≡ put r (known v) (known_state self.old) }
    {
        let r = usize::from(r % 8);
        if r == 0 {
            self.forget();
            self.regs[0] = u32::from(v.forgotten());
        } else {
            self.regs[r] = u32::from(v);
        }
    }

    // A register takes a value, and the codes are set from it.
    #[tactic(auto, unfolding(sitting::specs::Test::moved, sitting::specs::Test::put))]
    pub fn move_to(&mut self, r: u8, v: Known)
        ensures { known_state self.new ≡ moved r (known v) (known_state self.old) }
    {
        self.codes = u32::from(v);
        self.put_in(r, v);
    }

    // What is known of the word at a, where it is watched.
    pub fn watched_at(&self, watched: &Watched, a: usize) -> Known
        ensures { known result ≡ held a watched.now (known_state self.now).words }
    {
        match place(watched, a) {
            Some(j) => Known::from(self.words[j]),
            None => Known::Any,
        }
    }

    // The word at a takes a value: what is known of it, where it is watched.
    pub fn remember_at(&mut self, watched: &Watched, a: u16, v: Known)
        ensures { known_state self.new ≡ remember_in watched.now a (known v) (known_state self.old) }
    {
        let n = u32::from(v);
        for (j, w) in watched.iter().enumerate() {
            if *w == a {
                self.words[j] = n;
            }
        }
    }
}
