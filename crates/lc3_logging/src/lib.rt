// The logged run for hosts in C and Rust, by the rules of either edition. The two calls share one loop, which is
// told the edition: it is a function by itself then, and takes less than within a call whose edition is a constant, or
// within the function that both would share with the tests of the call.
#![tactic(auto)]

ghost use Rattle.std.specs.Prelude.{◌≡◌, List, ℕ};
ghost use Rattle.run.specs.Call.{start_of};
ghost use Rattle.logging.specs.LoggedCall.{logged_end_of, logged_call_of, second_logged_call_of};
ghost use Rattle.lc3_logging.specs.LoggedAnswer.{logged_answered, logged_answer_of};

use answers::Lc3Report;
use logger::refused;
use logger::stepping::run_accepted;
use logging::LoggedAnswer;
use machine::Machine;
use run::{Refusal, Report};

// What a logged run answers, 96 bytes: what a run does, and `logged`, the words written to the log. `stop` may be log
// full, 3.
#[repr(C)]
#[derive(Clone, Copy)]
pub struct Lc3LoggedAnswer {
    pub machine: Machine,
    pub steps: u64,
    pub keys: u64,
    pub shown: u64,
    pub logged: u64,
    pub index: u64,
    pub refusal: u32,
    pub stop: u32,
}

// What a logged run answers, in numbers alone.
impl From<LoggedAnswer> for Lc3LoggedAnswer {
    ghost from_gives = { λ a r. (memory output log : List ℕ) → logged_answered r memory output log
        ≡ logged_answer_of (logged_end_of a memory output log) };

    fn from(a: LoggedAnswer) -> Lc3LoggedAnswer {
        let r = Lc3Report::from(Report {
            steps: a.steps,
            keys: a.keys,
            shown: a.shown,
            ending: a.ending.run(),
        });
        Lc3LoggedAnswer {
            machine: a.machine,
            steps: r.steps,
            keys: r.keys,
            shown: r.shown,
            logged: a.words as u64,
            index: r.index,
            refusal: r.refusal,
            stop: a.ending.stop(),
        }
    }
}

// The logged run of n steps. A call that is turned down answers its number and leaves everything as it was handed in.
pub fn lc3_run_logged(
    m: Machine,
    memory: &mut [u16],
    times: &[u64],
    bytes: &[u8],
    output: &mut [u8],
    log: &mut [u16],
    n: u64,
) -> Lc3LoggedAnswer
    ensures { logged_answered result memory.new output.new log.new
        ≡ logged_answer_of (logged_call_of (start_of m memory.old times.now bytes.now
        output.old) log.old n) }
{
    let Some(whole) = memory.as_mut_array() else {
        return refused(m, Refusal::MemorySize).into();
    };
    match refusals::admission(m, whole, times, bytes, n) {
        Ok(()) => run_accepted(false, m, whole, times, bytes, output, log, n).into(),
        Err(refusal) => refused(m, refusal).into(),
    }
}

// The same by the rules of the second edition.
pub fn lc3_run_logged_second(
    m: Machine,
    memory: &mut [u16],
    times: &[u64],
    bytes: &[u8],
    output: &mut [u8],
    log: &mut [u16],
    n: u64,
) -> Lc3LoggedAnswer
    ensures { logged_answered result memory.new output.new log.new
        ≡ logged_answer_of (second_logged_call_of (start_of m memory.old times.now bytes.now
        output.old) log.old n) }
{
    let Some(whole) = memory.as_mut_array() else {
        return refused(m, Refusal::MemorySize).into();
    };
    match refusals::admission(m, whole, times, bytes, n) {
        Ok(()) => run_accepted(true, m, whole, times, bytes, output, log, n).into(),
        Err(refusal) => refused(m, refusal).into(),
    }
}
