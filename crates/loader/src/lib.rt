// Object files, read into lent memory and written from a range of it.
#![tactic(auto)]

ghost use Rattle.std.specs.Prelude.{◌≡◌, Ok};
ghost use Rattle.lent.specs.Lent.{counted};
ghost use Rattle.object.specs.Calls.{loading, load_accepted, load_of, save_accepted, save_of};
ghost use Rattle.object.specs.Accepted.{Readable, Writable};

use lent::Refusal;
use object::Loaded;

pub mod refusals;
pub mod words;

pub fn load(file: &[u8], memory: &mut [u16]) -> Result<Loaded, Refusal>
    ensures { loading result memory.new ≡ load_of file.now memory.old }
{
    refusals::load_refusal(file, memory)?;
    Ok(load_accepted(file, memory))
}

fn load_accepted(file: &[u8], memory: &mut [u16]) -> Loaded
    requires { Readable file.now memory.old }
    ensures { loading (Ok result) memory.new ≡ load_accepted file.now memory.old }
{
    let origin = u16::from_be_bytes([file[0], file[1]]);
    let count = file.len() / 2 - 1;
    let start = origin as usize;
    words::read_words(&file[2..], &mut memory[start..start + count]);
    Loaded {
        origin,
        words: count as u32,
    }
}

// The origin is one word of the file, so that a range, an empty one too, begins at xFFFF at most.
pub fn save(memory: &[u16], origin: u16, words: usize, output: &mut [u8]) -> Result<usize, Refusal>
    ensures { counted result output.new
        ≡ save_of memory.now origin words output.old }
{
    refusals::save_refusal(memory, origin, words, output)?;
    Ok(save_accepted(memory, origin, words, output))
}

fn save_accepted(memory: &[u16], origin: u16, words: usize, output: &mut [u8]) -> usize
    requires { Writable memory.now origin words output.old }
    ensures { counted (Ok result) output.new
        ≡ save_accepted memory.now origin words output.old }
{
    let count = 2 + 2 * words;
    let start = origin as usize;
    output[..2].copy_from_slice(&origin.to_be_bytes());
    words::write_words(&memory[start..start + words], &mut output[2..count]);
    count
}
