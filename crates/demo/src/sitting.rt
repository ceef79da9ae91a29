// A sitting: the ready-made monitor, an examiner's answers and a candidate's program in memory, and a run of them in
// calls, each of which goes on from the one before.
use crate::starting::{ObjectFile, Source, Start};
use machine::{Machine, Memory};
use run::{Answer, Ending};
use std::fmt;
use std::rt::Files;

// Keys that have not arrived: when each will, and its byte.
#[derive(Clone, Copy)]
pub(crate) struct Keys {
    pub times: &'static [u64],
    pub bytes: &'static [u8],
}

impl Keys {
    // Those that are left when so many have arrived.
    fn after(self, arrived: usize) -> Keys {
        Keys {
            times: self.times.get(arrived..).unwrap_or(&[]),
            bytes: self.bytes.get(arrived..).unwrap_or(&[]),
        }
    }
}

// Its memory is lent to each call.
#[derive(Clone, Copy)]
pub(crate) struct Sitting {
    pub machine: Machine,
    keys: Keys,
}

impl Sitting {
    // Of a program that was started in memory.
    pub fn of(program: Start, keys: Keys) -> Sitting {
        Sitting {
            machine: program.machine(),
            keys,
        }
    }

    // The answers and then the program are loaded, and the program's record is the one to run.
    pub fn new(
        rt: &impl Files,
        memory: &mut Memory,
        answers: ObjectFile,
        program: ObjectFile,
        source: Source,
        keys: Keys,
    ) -> Sitting {
        // 65,536 words are not refused.
        let _ = installer::install(memory);
        answers.start(rt, Source::Examiner, memory);
        Sitting::of(program.start(rt, source, memory), keys)
    }

    // A call of at most so many steps, on what is left of the keys.
    pub fn call(&mut self, memory: &mut Memory, steps: u64, output: &mut [u8]) -> Answer {
        let Keys { times, bytes } = self.keys;
        let answer = run_call::run(self.machine, memory, times, bytes, output, steps);
        self.machine = answer.machine;
        self.keys = self.keys.after(answer.report.keys);
        answer
    }

    // A call of one step. What it shows is not kept.
    pub fn step(&mut self, memory: &mut Memory) -> Answer {
        self.call(memory, 1, &mut [0; 1])
    }

    // The word at the PC.
    pub fn next_word(&self, memory: &Memory) -> u16 {
        let pc = usize::from(self.machine.pc);
        memory.get(pc).copied().unwrap_or(0)
    }
}

// No call goes on from one that ended so.
pub(crate) fn is_over(ending: Ending) -> bool {
    matches!(ending, Ending::Halted | Ending::Refused(_))
}

#[derive(Clone, Copy, PartialEq, Eq)]
pub(crate) enum Mode {
    Supervisor,
    User,
}

impl From<Machine> for Mode {
    fn from(machine: Machine) -> Mode {
        if machine.psr < 0x8000 {
            Mode::Supervisor
        } else {
            Mode::User
        }
    }
}

impl fmt::Display for Mode {
    fn fmt<W: fmt::Write>(&self, f: &mut fmt::Formatter<W>) -> fmt::Result {
        match self {
            Mode::Supervisor => f.pad("Supervisor"),
            Mode::User => f.pad("User"),
        }
    }
}
