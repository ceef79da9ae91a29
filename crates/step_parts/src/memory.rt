// The lent words of memory.
ghost use Rattle.std.specs.Prelude.{◌≡◌, slice_index, slice_set};

use machine::Memory;

pub fn word_at(memory: &Memory, a: u16) -> u16
    ensures { result ≡ slice_index memory.now a }
{
    let k = a as usize;
    memory[k]
}

pub fn set_word(memory: &mut Memory, a: u16, v: u16)
    ensures { memory.new ≡ slice_set memory.old a v }
{
    let k = a as usize;
    memory[k] = v;
}
