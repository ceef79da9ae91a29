// A sitting: the ready-made monitor and a candidate's program on the machine, with recorded keys, in several calls.
// The gate compares what is printed with the file stdout.
#![tactic(auto)]

use beside::{count_different, sit_beside};
use machine::{Machine, Memory};
use printing::{BestEffort, print_shown};
use sitting::{Keys, Sitting};
use starting::{ObjectFile, Source};
use std::io;
use std::rt::Files;

mod beside;
mod calls;
mod printing;
mod sitting;
mod starting;

// What the candidate types, and when.
const KEYS: Keys = Keys {
    times: &[300, 400, 500, 600, 700, 800],
    bytes: b"Ada 7\n",
};

const NO_KEYS: Keys = Keys {
    times: &[],
    bytes: &[],
};

// The candidate's program, the answers of two examiners, and a file that lies on the vector of the access exception.
// Each has a listing beside it.
const CANDIDATE: ObjectFile = ObjectFile("candidate.obj");

const ANSWERS: ObjectFile = ObjectFile("answers.obj");

const OTHER_ANSWERS: ObjectFile = ObjectFile("other_answers.obj");

const ATTACK: ObjectFile = ObjectFile("attack.obj");

fn introduce(rt: &impl Print) -> io::Result<()> {
    println!(rt; "A sitting on the LC-3")?;
    println!(rt; "=====================\n")?;
    println!(rt; "The ready-made monitor serves traps and exceptions. The candidate's program at")?;
    println!(rt;
        "x3000 runs in User mode: it asks for a name, echoes it in capitals, then reaches"
    )?;
    println!(rt;
        "for the examiner's answers, in privileged memory at x2000. The access exception"
    )?;
    println!(rt; "stops it: the monitor halts the machine and shows nothing.")?;
    println!(rt; "Recorded keys: A d a space 7 Enter, at clocks 300, 400, 500, 600, 700, 800.\n")
}

// The candidate's sitting with these answers.
fn silent_sitting(files: &impl Files, memory: &mut Memory, answers: ObjectFile) -> Sitting {
    Sitting::new(files, memory, answers, CANDIDATE, Source::Candidate, KEYS)
}

// The same, where it is said of each file what came of its start.
fn told_sitting(rt: &impl Print, files: &impl Files, memory: &mut Memory) -> io::Result<Sitting> {
    // 65,536 words are not refused.
    let _ = installer::install(memory);
    println!(rt; "Object files, of which the last is run:")?;
    let answers = ANSWERS.start(files, Source::Examiner, memory);
    println!(rt; "  {answers}")?;
    let program = CANDIDATE.start(files, Source::Candidate, memory);
    println!(rt; "  {program}")?;
    Ok(Sitting::of(program, KEYS))
}

// Each part of the demonstration is a function by itself when compiled too, so that its memory is on the stack while it
// runs and no longer.

// The sitting in calls, and its display. Answers the last record.
#[inline(never)]
fn in_calls(rt: &impl Print, files: &impl Files) -> io::Result<Machine> {
    let mut memory = [0; 65536];
    let mut sitting = told_sitting(rt, files, &mut memory)?;
    println!(rt;
        "\nIn calls of at most 200 steps and 4 bytes, each going on from the one before:\n"
    )?;
    let display = calls::sit(rt, &mut sitting, &mut memory)?;
    println!(rt; "\nThe display:\n")?;
    rt.write_all(&display)?;
    Ok(sitting.machine)
}

// The sitting one step a call, beside one with other answers. Answers the last record of the first.
#[inline(never)]
fn in_steps(rt: &impl Print, files: &impl Files) -> io::Result<Machine> {
    let mut memory = [0; 65536];
    let mut first = silent_sitting(files, &mut memory, ANSWERS);
    let mut other_memory = [0; 65536];
    let mut other = silent_sitting(files, &mut other_memory, OTHER_ANSWERS);
    println!(rt; "\nThe same in single steps, beside a sitting whose answers are other words.")?;
    println!(rt; "The candidate's program leaves User mode at these steps:\n")?;
    sit_beside(rt, &mut first, &mut memory, &mut other, &mut other_memory)?;
    let different = count_different(&memory, &other_memory);
    println!(rt; "Words of memory that differ at the end: {different}")?;
    Ok(first.machine)
}

// What the attack shows where it is loaded all the same, beside these answers.
#[inline(never)]
fn stolen(files: &impl Files, answers: ObjectFile) -> [u8; 1] {
    let mut memory = [0; 65536];
    let mut sitting = Sitting::new(
        files,
        &mut memory,
        answers,
        ATTACK,
        Source::Examiner,
        NO_KEYS,
    );
    let mut shown = [0];
    sitting.call(&mut memory, 100, &mut shown);
    shown
}

// A file that would replace the vector of the access exception, and what comes of it.
#[inline(never)]
fn attack(rt: &impl Print, files: &impl Files) -> io::Result<()> {
    println!(rt;
        "\nAnother candidate hands in a file for x0102, the vector of the access exception:"
    )?;
    let mut memory = [0; 65536];
    silent_sitting(files, &mut memory, ANSWERS);
    let before = memory;
    let started = ATTACK.start(files, Source::Candidate, &mut memory);
    println!(rt; "  {started}")?;
    let changed = count_different(&memory, &before);
    println!(rt; "Words of memory that it has changed: {changed}")?;
    print!(rt; "Loaded all the same it would show the first answer: ")?;
    print_shown(rt, &stolen(files, ANSWERS))?;
    print!(rt; " in the one sitting, ")?;
    print_shown(rt, &stolen(files, OTHER_ANSWERS))?;
    println!(rt; " in the other.")
}

fn demonstrate(rt: &impl Print, files: &impl Files) -> io::Result<()> {
    introduce(rt)?;
    let calls = in_calls(rt, files)?;
    let steps = in_steps(rt, files)?;
    if calls == steps {
        println!(rt;
            "In calls of 200 steps and in single steps the sitting ends with the same record."
        )?;
    } else {
        println!(rt; "In calls and in single steps the sitting ends with DIFFERENT records.")?;
    }
    attack(rt, files)
}

fn main(rt: HostRuntime) {
    // By best effort no print answers an error.
    let _ = demonstrate(&BestEffort(&rt), &rt);
}
