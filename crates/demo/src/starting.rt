// Object files, read from the working folder, and started in memory.
use crate::printing::Word;
use lent::Refusal;
use machine::Machine;
use start::Started;
use std::io::Read;
use std::rt::Files;
use std::{fmt, fs};

// Where the candidate's stack begins.
const USER_STACK: u16 = 0xFDFF;

// The most bytes that are read of a file.
const FILE_BYTES: usize = 2048;

// Whose a file is: a candidate's may lie in x3000 to xFDFF alone, an examiner's is loaded wherever it lies.
#[derive(Clone, Copy)]
pub(crate) enum Source {
    Candidate,
    Examiner,
}

// An object file in the working folder, by its name.
#[derive(Clone, Copy)]
pub(crate) struct ObjectFile(pub &'static str);

// What came of a start.
#[derive(Clone, Copy)]
pub(crate) struct Start {
    name: &'static str,
    answer: Result<Started, Refusal>,
}

impl ObjectFile {
    // Loads the file into memory, and starts it in User mode. It is read at each start, by one read: one that cannot be
    // read is an empty one, which the start refuses.
    pub fn start(self, rt: &impl Files, source: Source, memory: &mut [u16]) -> Start {
        let name = self.0;
        let mut bytes = [0; FILE_BYTES];
        let count = fs::open(rt, name).and_then(|mut file| file.read(&mut bytes));
        let file = bytes.get(..count.unwrap_or(0)).unwrap_or(&[]);
        let answer = match source {
            Source::Candidate => starter::start_user(file, memory, USER_STACK),
            Source::Examiner => starter::start(file, memory, true, USER_STACK),
        };
        Start { name, answer }
    }
}

impl Start {
    // The record to run: that of zeros where the file was refused.
    pub fn machine(self) -> Machine {
        self.answer
            .map(|started| started.machine)
            .unwrap_or_default()
    }
}

impl fmt::Display for Start {
    fn fmt<W: fmt::Write>(&self, f: &mut fmt::Formatter<W>) -> fmt::Result {
        let name = self.name;
        match self.answer {
            Ok(Started { machine, words }) => {
                write!(f, "{name}: {words} words from {}", Word(machine.pc))
            }
            Err(refusal) => write!(f, "{name}: {refusal}"),
        }
    }
}
