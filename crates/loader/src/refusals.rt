// How reading and writing a file are turned away.
ghost use Rattle.std.specs.Prelude.{◌≡◌};
ghost use Rattle.lent.specs.Lent.{refusal_of};
ghost use Rattle.object.specs.Calls.{load_refusal, save_refusal};

use lent::Refusal;

#[tactic(auto, using(crate::proofs::Tests::tests), unfolding(crate::proofs::Tests::opened))]
pub fn load_refusal(file: &[u8], memory: &[u16]) -> Result<(), Refusal>
    ensures { refusal_of result ≡ load_refusal file.now memory.now }
{
    if memory.len() != 65536 {
        return Err(Refusal::MemorySize);
    }
    if file.len() % 2 != 0 || file.len() < 2 {
        return Err(Refusal::BrokenFile);
    }
    let origin = u16::from_be_bytes([file[0], file[1]]);
    if 65536 < origin as usize + (file.len() / 2 - 1) {
        return Err(Refusal::PastMemory);
    }
    Ok(())
}

#[tactic(auto, using(crate::proofs::Tests::tests), unfolding(crate::proofs::Tests::opened))]
pub fn save_refusal(memory: &[u16], origin: u16, words: usize, output: &[u8]) -> Result<(), Refusal>
    ensures { refusal_of result ≡ save_refusal memory.now origin words output.now }
{
    if memory.len() != 65536 {
        return Err(Refusal::MemorySize);
    }
    if 65536 - (origin as usize) < words {
        return Err(Refusal::PastMemory);
    }
    if output.len() < 2 + 2 * words {
        return Err(Refusal::NoRoom);
    }
    Ok(())
}
