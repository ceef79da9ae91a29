// The logged run: the run of n steps, with three words a step written to a lent log. What it is, and what is proved of
// it, is in crate `logging`.
#![tactic(auto)]

ghost use Rattle.std.specs.Prelude.{◌≡◌};
ghost use Rattle.machine.specs.Edition.{edition_of};
ghost use Rattle.run.specs.declared.Ending.TheVariants.{Refused};
ghost use Rattle.run.specs.Call.{start_of};
ghost use Rattle.logging.specs.declared.LoggedEnding.TheVariants.{Run};
ghost use Rattle.logging.specs.LoggedCall.{logged_end_of, logged_call_by, logged_call_of};

use logging::{LoggedAnswer, LoggedEnding};
use machine::Machine;
use run::{Ending, Refusal};

pub mod stepping;

// A call that is turned down leaves everything, the log included, as it was handed in.
pub fn refused(m: Machine, refusal: Refusal) -> LoggedAnswer
    ensures { result
        ≡ record { machine = m; steps = 0; keys = 0; shown = 0; words = 0; ending = Run (Refused refusal) } }
{
    LoggedAnswer {
        machine: m,
        steps: 0,
        keys: 0,
        shown: 0,
        words: 0,
        ending: LoggedEnding::Run(Ending::Refused(refusal)),
    }
}

// The logged run of n steps by the third edition's rules, or the second's: turned down with everything as it was handed
// in, or run.
pub fn run_logged_by(
    second: bool,
    m: Machine,
    memory: &mut [u16],
    times: &[u64],
    bytes: &[u8],
    output: &mut [u8],
    log: &mut [u16],
    n: u64,
) -> LoggedAnswer
    ensures { logged_end_of result memory.new output.new log.new
        ≡ logged_call_by (edition_of second) (start_of m memory.old times.now bytes.now
        output.old) log.old n }
{
    let Some(whole) = memory.as_mut_array() else {
        return refused(m, Refusal::MemorySize);
    };
    match refusals::admission(m, whole, times, bytes, n) {
        Ok(()) => stepping::run_accepted(second, m, whole, times, bytes, output, log, n),
        Err(refusal) => refused(m, refusal),
    }
}

// The logged run of n steps by the third edition's rules (M26).
pub fn run_logged(
    m: Machine,
    memory: &mut [u16],
    times: &[u64],
    bytes: &[u8],
    output: &mut [u8],
    log: &mut [u16],
    n: u64,
) -> LoggedAnswer
    ensures { logged_end_of result memory.new output.new log.new
        ≡ logged_call_of (start_of m memory.old times.now bytes.now
        output.old) log.old n }
{
    run_logged_by(false, m, memory, times, bytes, output, log, n)
}
