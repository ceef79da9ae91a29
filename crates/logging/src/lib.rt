// What the definitions of the logged run and the code of crate `logger` share. What a logged run is, and what is proved
// of it, is in specs/.
#![tactic(auto)]

ghost use Rattle.std.specs.Prelude.{◌≡◌};
ghost use Rattle.logging.specs.LoggedRun.{run_ending};
ghost use Rattle.logging.specs.LoggedCall.{logged_stop};

use machine::Machine;
use run::Ending;

// How a logged call ended: as a run does, or stopped because fewer than three words of the log are free.
#[derive(Clone, Copy)]
pub enum LoggedEnding {
    Run(Ending),
    LogFull,
}

impl LoggedEnding {
    // The ending of the run apart from its log.
    pub fn run(self) -> Ending
        ensures { result ≡ run_ending self }
    {
        match self {
            LoggedEnding::Run(ending) => ending,
            LoggedEnding::LogFull => Ending::Done,
        }
    }

    // The stop's number: the run's, or log full.
    pub fn stop(self) -> u32
        ensures { result ≡ logged_stop self }
    {
        match self {
            LoggedEnding::Run(ending) => ending.stop(),
            LoggedEnding::LogFull => 3,
        }
    }
}

// What a logged run answers: record and counts as a run does, the words written to the log, and how it ended.
#[derive(Clone, Copy)]
pub struct LoggedAnswer {
    pub machine: Machine,
    pub steps: u64,
    pub keys: usize,
    pub shown: usize,
    pub words: usize,
    pub ending: LoggedEnding,
}
