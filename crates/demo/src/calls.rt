// The sitting in calls of some steps and bytes, with a table of them.
use crate::printing::{Word, print_shown};
use crate::sitting::{Mode, Sitting, is_over};
use arrayvec::ArrayVec;
use machine::Memory;
use run::{Answer, Ending, Report};
use std::io;

// The most steps of one call.
const STEPS: u64 = 200;

// The most bytes of one call.
const ROOM: usize = 4;

// The bytes that the display holds.
const DISPLAY: usize = 64;

// The most calls.
const CALLS: u64 = 20;

fn stop_text(ending: Ending) -> &'static str {
    match ending {
        Ending::Done => "done",
        Ending::Halted => "halted",
        Ending::OutputFull => "output full",
        Ending::Refused(_) => "refused",
    }
}

// A line of the table: the number of the call, what it answered, and the bytes that it showed.
fn print_row(rt: &impl Print, call: u64, answer: Answer, shown: &[u8]) -> io::Result<()> {
    let m = answer.machine;
    let r = answer.report;
    let stop = stop_text(r.ending);
    let pc = Word(m.pc);
    let mode = Mode::from(m);
    print!(rt; "{call:4}{:7}{:6}{:7}", r.steps, r.keys, r.shown)?;
    print!(rt; "  {stop:11}{:7}  {pc}  {mode:10}  ", m.clock)?;
    print_shown(rt, shown)?;
    println!(rt)
}

// Makes the calls and prints the table. Answers what the display shows at the end.
pub(crate) fn sit(
    rt: &impl Print,
    sitting: &mut Sitting,
    memory: &mut Memory,
) -> io::Result<ArrayVec<u8, DISPLAY>> {
    println!(rt; "call  steps  keys  shown  stop         clock  PC     mode        display")?;
    let mut display = ArrayVec::new();
    for call in 1..=CALLS {
        let room = ROOM.min(display.remaining_capacity());
        let mut output = [0; ROOM];
        let output = &mut output[..room];
        let answer = sitting.call(memory, STEPS, output);
        let Report { shown, ending, .. } = answer.report;
        let shown = output.get(..shown).unwrap_or(output);
        print_row(rt, call, answer, shown)?;
        // A call shows no more than there is room for.
        let _ = display.try_extend_from_slice(shown);
        if is_over(ending) {
            break;
        }
    }
    Ok(display)
}
