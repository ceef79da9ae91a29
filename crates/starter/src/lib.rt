// Load and start together: an object file is loaded into lent memory, and a fresh record stands at its origin. A
// candidate's file is started in User mode, and loaded to User mode's words only.
#![tactic(auto)]

ghost use Rattle.std.specs.Prelude.{◌≡◌};
ghost use Rattle.start.specs.Start.{starting, started_of, user_started_of};

use lent::Refusal;
use start::Started;

mod records;
mod refusals;

pub fn start(file: &[u8], memory: &mut [u16], user: bool, stack: u16) -> Result<Started, Refusal>
    ensures { starting result memory.new
        ≡ started_of file.now memory.old user stack }
{
    let loaded = loader::load(file, memory)?;
    Ok(Started {
        machine: records::fresh(loaded.origin, user, stack),
        words: loaded.words,
    })
}

// A file from a source that is not trusted: no privileged word of memory is replaced.
pub fn start_user(file: &[u8], memory: &mut [u16], stack: u16) -> Result<Started, Refusal>
    ensures { starting result memory.new
        ≡ user_started_of file.now memory.old stack }
{
    refusals::user_refusal(file, memory)?;
    start(file, memory, true, stack)
}
