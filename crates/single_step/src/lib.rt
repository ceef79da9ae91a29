// The single step by value: what a run with n = 1 answers, made with no loop. It has the run's refusals and stops, and
// the step that every loop makes.
#![tactic(auto)]

ghost use Rattle.std.specs.Prelude.{◌≡◌, List, ℕ, ◌+◌, ◌^◌, ◌≤◌, length};
ghost use Rattle.machine.specs.Edition.{edition_of};
ghost use Rattle.machine.specs.Step.{step_by};
ghost use Rattle.run.specs.Run.{begin, ended_by, run_by};
ghost use Rattle.run.specs.Call.{start_of, end_of, call_by};
ghost use Rattle.answers.specs.Answer.{answer_of, reported};

use answers::Lc3Report;
use loop_parts::{advance, is_full, shown_count};
use machine::{Control, Machine, Memory};
use run::{Answer, Ending, Refusal, Report};

// A step that is stopped before it began: the record as handed in, and zero counts.
#[tactic(auto, unfolding(run::specs::Run::begin, run::specs::Run::ended_by))]
fn stopped(m: Machine, ending: Ending) -> Answer
    ensures { (memory times bytes output : List ℕ) → end_of result memory output
        ≡ ended_by ending (begin (start_of m memory times bytes output)) }
{
    let report = Report::stopped(ending);
    Answer { machine: m, report }
}

// The step of a call that is accepted. The stops are tested in the run's order: halted, output full.
fn step_accepted(
    second: bool,
    m: Machine,
    memory: &mut Memory,
    times: &[u64],
    bytes: &[u8],
    output: &mut [u8],
) -> Answer
    requires times_len { length times.now ≡ length bytes.now }
    requires clock_bound { m.clock + 1 ≤ 2 ^ 48 }
    ensures { end_of result memory.new output.new
        ≡ run_by (step_by (edition_of second)) (start_of m memory.old times.now bytes.now
        output.old) 1 }
{
    if m.devices.mcr < 0x8000 {
        return stopped(m, Ending::Halted);
    }
    let mut regs = m.regs;
    let c = Control::from(m);
    let s = advance(
        second, c, m.clock, &mut regs, memory, times, bytes, 0, output, 0,
    );
    let display = s.display;
    if is_full(display) {
        return stopped(m, Ending::OutputFull);
    }
    let machine = s.control.machine(regs, m.clock + 1);
    let report = Report {
        steps: 1,
        keys: s.keys,
        shown: shown_count(display),
        ending: Ending::Done,
    };
    Answer { machine, report }
}

// One step by the third edition's rules, or the second's: turned down as a run is, stopped as a run is, or made.
pub fn step(
    second: bool,
    m: Machine,
    memory: &mut [u16],
    times: &[u64],
    bytes: &[u8],
    output: &mut [u8],
) -> Answer
    ensures { end_of result memory.new output.new
        ≡ call_by (step_by (edition_of second)) (start_of m memory.old times.now bytes.now
        output.old) 1 }
{
    let Some(whole) = memory.as_mut_array() else {
        return refusals::refused(m, Refusal::MemorySize);
    };
    match refusals::admission(m, whole, times, bytes, 1) {
        Ok(()) => step_accepted(second, m, whole, times, bytes, output),
        Err(refusal) => refusals::refused(m, refusal),
    }
}

// What a host has of a step beside the buffers that it lends: the record, and the report in numbers.
#[derive(Clone, Copy)]
pub struct Called {
    pub machine: Machine,
    pub report: Lc3Report,
}

// The step with its report in numbers.
pub fn one_step(
    second: bool,
    m: Machine,
    memory: &mut [u16],
    times: &[u64],
    bytes: &[u8],
    output: &mut [u8],
) -> Called
    ensures { reported result.machine result.report memory.new output.new
        ≡ answer_of (call_by (step_by (edition_of second)) (start_of m memory.old times.now
        bytes.now output.old) 1) }
{
    let a = step(second, m, memory, times, bytes, output);
    let machine = a.machine;
    let report = Lc3Report::from(a.report);
    Called { machine, report }
}
