// One call of the run.
ghost use Rattle.std.specs.Prelude.{◌≡◌, ◌+◌, ◌%◌};

use crate::outcome::Outcome;
use machine::Machine;
use std::io;

// The output as it is lent.
const BLANK: [u8; 16] = [0xAA; 16];

// The most words of memory that a call is lent.
const MOST_WORDS: usize = 65537;

// What a call is handed: the record, how many words of memory, at most `MOST_WORDS`, the keys, and how many steps.
#[derive(Clone, Copy)]
pub(crate) struct Call<'a> {
    pub machine: Machine,
    pub size: usize,
    pub times: &'a [u64],
    pub bytes: &'a [u8],
    pub steps: u64,
}

// The word lent at an address: BRnzp, by the low bits of the address. So a run makes every step, and alters no word.
fn lent_word(address: usize) -> u16
    ensures { result ≡ 0x0E00 + address % 512 }
{
    0x0E00 + (address % 512) as u16
}

fn is_as_lent(memory: &[u16]) -> bool {
    memory
        .iter()
        .enumerate()
        .all(|(address, word)| *word == lent_word(address))
}

impl<'a> Call<'a> {
    // A call with no keys.
    pub fn keyless(machine: Machine, steps: u64) -> Call<'a> {
        Call {
            machine,
            size: 65536,
            times: &[],
            bytes: &[],
            steps,
        }
    }

    // The same with keys of these times and bytes.
    pub fn keyed(self, times: &'a [u64], bytes: &'a [u8]) -> Call<'a> {
        Call {
            times,
            bytes,
            ..self
        }
    }

    // The same with a change.
    pub fn with<F: FnOnce(&mut Call<'a>)>(mut self, change: F) -> Call<'a>
        requires { F.IsAlwaysCallable change }
    {
        change(&mut self);
        self
    }

    // Makes the call, and prints its line.
    pub fn print(self, rt: &impl Print, text: &str) -> io::Result<()> {
        let mut words = [0u16; MOST_WORDS];
        for (address, word) in words.iter_mut().enumerate() {
            *word = lent_word(address);
        }
        let memory = &mut words[..self.size.min(MOST_WORDS)];
        let mut output = BLANK;
        let answer = run_call::run(
            self.machine,
            memory,
            self.times,
            self.bytes,
            &mut output,
            self.steps,
        );
        let unaltered = answer.machine == self.machine && is_as_lent(memory) && output == BLANK;
        let outcome = Outcome {
            report: answer.report,
            unaltered,
        };
        println!(rt; "  {text:<48}{outcome}")
    }
}
