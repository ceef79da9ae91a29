// The sitting in single steps, beside one with other answers in privileged memory. After each step the two records are
// compared.
use crate::printing::Word;
use crate::sitting::{Mode, Sitting, is_over};
use machine::{Machine, Memory};
use std::{fmt, io};

// The most steps of the sitting.
const STEPS: u64 = 5000;

// What brings a candidate to the monitor's STOP.
#[derive(Clone, Copy)]
enum Cause {
    Privilege,
    IllegalOpcode,
    Trap,
    Access,
}

// A routine of the monitor.
#[derive(Clone, Copy)]
enum Routine {
    Getc,
    Out,
    Puts,
    Halt,
    Stop(Cause),
    Other,
}

impl Cause {
    // By the opcode of the word that was obeyed.
    fn of(word: u16) -> Cause {
        match word / 0x1000 {
            0x8 => Cause::Privilege,
            0xD => Cause::IllegalOpcode,
            0xF => Cause::Trap,
            _ => Cause::Access,
        }
    }
}

impl Routine {
    // The routine at this PC, where this word was obeyed before.
    fn of(pc: u16, word: u16) -> Routine {
        match pc {
            0x0200 => Routine::Getc,
            0x0204 => Routine::Out,
            0x020C => Routine::Puts,
            0x026D => Routine::Halt,
            0x027C => Routine::Stop(Cause::of(word)),
            _ => Routine::Other,
        }
    }
}

impl fmt::Display for Cause {
    fn fmt<W: fmt::Write>(&self, f: &mut fmt::Formatter<W>) -> fmt::Result {
        f.write_str(match self {
            Cause::Privilege => "the privilege exception",
            Cause::IllegalOpcode => "the illegal opcode exception",
            Cause::Trap => "a trap without a service",
            Cause::Access => "the access exception",
        })
    }
}

impl fmt::Display for Routine {
    fn fmt<W: fmt::Write>(&self, f: &mut fmt::Formatter<W>) -> fmt::Result {
        match self {
            Routine::Getc => write!(f, "GETC"),
            Routine::Out => write!(f, "OUT"),
            Routine::Puts => write!(f, "PUTS"),
            Routine::Halt => write!(f, "HALT"),
            Routine::Stop(cause) => write!(f, "STOP, by {cause}"),
            Routine::Other => write!(f, "another routine"),
        }
    }
}

// A step: the records before it and after it, and the word that was obeyed.
#[derive(Clone, Copy)]
struct Step {
    before: Machine,
    after: Machine,
    word: u16,
}

impl Step {
    fn leaves_user_mode(&self) -> bool {
        Mode::from(self.before) == Mode::User && Mode::from(self.after) == Mode::Supervisor
    }
}

// The clock, the PC and R0 before the step, R0 after it, and the routine that it enters.
impl fmt::Display for Step {
    fn fmt<W: fmt::Write>(&self, f: &mut fmt::Formatter<W>) -> fmt::Result {
        let clock = self.before.clock;
        let pc = Word(self.before.pc);
        let r0 = Word(self.before.regs[0]);
        let r0_after = Word(self.after.regs[0]);
        let routine = Routine::of(self.after.pc, self.word);
        write!(f, "{clock:5}  {pc}  {r0}      {r0_after}     {routine}")
    }
}

// Makes the two sittings, with a line for each step at which the first leaves User mode.
pub(crate) fn sit_beside(
    rt: &impl Print,
    first: &mut Sitting,
    memory: &mut Memory,
    second: &mut Sitting,
    other: &mut Memory,
) -> io::Result<()> {
    println!(rt; "clock  PC     R0 before  R0 after  to")?;
    let mut same = 0;
    for steps in 0..STEPS {
        let before = first.machine;
        let word = first.next_word(memory);
        let a = first.step(memory);
        let b = second.step(other);
        let step = Step {
            before,
            after: a.machine,
            word,
        };
        if step.leaves_user_mode() {
            println!(rt; "{step}")?;
        }
        if is_over(a.report.ending) {
            println!(rt;
                "\nSteps made: {steps}. After {same} of them record and counts were the same in both sittings."
            )?;
            break;
        }
        same += u64::from(a == b);
    }
    Ok(())
}

// The words in which two memories differ.
pub(crate) fn count_different(a: &[u16], b: &[u16]) -> usize {
    a.iter().zip(b).filter(|(x, y)| x != y).count()
}
