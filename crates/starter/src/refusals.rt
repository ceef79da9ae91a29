// How starting a file in User mode is turned away.
ghost use Rattle.std.specs.Prelude.{◌≡◌};
ghost use Rattle.lent.specs.Lent.{refusal_of};
ghost use Rattle.start.specs.Start.{outside_user_words, user_refusal};

use lent::Refusal;

// The origin or a word from there on lies outside x3000 to xFDFF.
#[tactic(auto, unfolding(start::proofs::Opened::opened))]
fn is_outside(origin: u16, words: usize) -> bool
    ensures { result ≡ outside_user_words origin words }
{
    origin < 0x3000 || 0xFE00 <= origin || 0xFE00 - (origin as usize) < words
}

pub fn user_refusal(file: &[u8], memory: &[u16]) -> Result<(), Refusal>
    ensures { refusal_of result ≡ user_refusal file.now memory.now }
{
    loader::refusals::load_refusal(file, memory)?;
    let origin = u16::from_be_bytes([file[0], file[1]]);
    if is_outside(origin, file.len() / 2 - 1) {
        return Err(Refusal::OutsideUserWords);
    }
    Ok(())
}
