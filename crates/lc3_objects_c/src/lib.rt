// The calls of `lc3_objects`, exported to hosts in C and Rust.
#![tactic(auto)]

ghost use Rattle.std.specs.Prelude.{◌≡◌};
ghost use Rattle.lent.specs.Lent.{host_counted};
ghost use Rattle.object.specs.Calls.{save_of};
ghost use Rattle.start.specs.Start.{started_of, user_started_of};
ghost use Rattle.lc3_objects.specs.Answers.{host_starting};

use lc3_objects::Lc3Started;
use lent::Lc3Counted;

#[unsafe(no_mangle)]
pub extern "C" fn lc3_start(file: &[u8], memory: &mut [u16], user: bool, stack: u16) -> Lc3Started
    ensures { host_starting result memory.new
        ≡ started_of file.now memory.old user stack }
{
    lc3_objects::lc3_start(file, memory, user, stack)
}

#[unsafe(no_mangle)]
pub extern "C" fn lc3_start_user(file: &[u8], memory: &mut [u16], stack: u16) -> Lc3Started
    ensures { host_starting result memory.new
        ≡ user_started_of file.now memory.old stack }
{
    lc3_objects::lc3_start_user(file, memory, stack)
}

#[unsafe(no_mangle)]
pub extern "C" fn lc3_save(
    memory: &[u16],
    origin: u16,
    words: usize,
    output: &mut [u8],
) -> Lc3Counted
    ensures { host_counted result output.new
        ≡ save_of memory.now origin words output.old }
{
    lc3_objects::lc3_save(memory, origin, words, output)
}
