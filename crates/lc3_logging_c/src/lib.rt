// The logged runs of `lc3_logging`, exported to hosts in C and Rust. They have an archive of their own: the loop in it
// calls the step, and two loops in one archive would cost both their inlining.
#![tactic(auto)]

ghost use Rattle.std.specs.Prelude.{◌≡◌};
ghost use Rattle.run.specs.Call.{start_of};
ghost use Rattle.logging.specs.LoggedCall.{logged_call_of, second_logged_call_of};
ghost use Rattle.lc3_logging.specs.LoggedAnswer.{logged_answered, logged_answer_of};

use lc3_logging::Lc3LoggedAnswer;
use machine::Machine;

// The logged run of n steps. A call that is turned down answers its number and leaves everything as it was handed in.
#[unsafe(no_mangle)]
pub extern "C" fn lc3_run_logged(
    m: Machine,
    memory: &mut [u16],
    times: &[u64],
    bytes: &[u8],
    output: &mut [u8],
    log: &mut [u16],
    n: u64,
) -> Lc3LoggedAnswer
    ensures { logged_answered result memory.new output.new log.new
        ≡ logged_answer_of (logged_call_of (start_of m memory.old times.now bytes.now
        output.old) log.old n) }
{
    lc3_logging::lc3_run_logged(m, memory, times, bytes, output, log, n)
}

// The same by the rules of the second edition.
#[unsafe(no_mangle)]
pub extern "C" fn lc3_run_logged_second(
    m: Machine,
    memory: &mut [u16],
    times: &[u64],
    bytes: &[u8],
    output: &mut [u8],
    log: &mut [u16],
    n: u64,
) -> Lc3LoggedAnswer
    ensures { logged_answered result memory.new output.new log.new
        ≡ logged_answer_of (second_logged_call_of (start_of m memory.old times.now bytes.now
        output.old) log.old n) }
{
    lc3_logging::lc3_run_logged_second(m, memory, times, bytes, output, log, n)
}
