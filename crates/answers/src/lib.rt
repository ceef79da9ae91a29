// What every call answers to hosts in C and Rust. Refusals and stops are answered by their numbers, since an enum can't
// cross to C.
#![tactic(auto)]

ghost use Rattle.std.specs.Prelude.{◌≡◌, List, ℕ};
ghost use Rattle.run.specs.declared.Ending.TheVariants.{Refused};
ghost use Rattle.run.specs.Run.{begin, ended_by};
ghost use Rattle.run.specs.Call.{start_of, end_of};
ghost use Rattle.answers.specs.Answer.{answer_of, report_of, answered};

use machine::Machine;
use run::{Answer, Refusal, Report};

// What a run answers, 88 bytes: `refusal` is 0, or 11 to 15 or 19; `index` is the entry that offends under 15 and 19,
// and else 0; `stop` is done 0, halted 1, output full 2, and 0 where refused.
#[repr(C)]
#[derive(Clone, Copy)]
pub struct Lc3Answer {
    pub machine: Machine,
    pub steps: u64,
    pub keys: u64,
    pub shown: u64,
    pub index: u64,
    pub refusal: u32,
    pub stop: u32,
}

// What a single step answers beside the record that it alters, 40 bytes.
#[repr(C)]
#[derive(Clone, Copy)]
pub struct Lc3Report {
    pub steps: u64,
    pub keys: u64,
    pub shown: u64,
    pub index: u64,
    pub refusal: u32,
    pub stop: u32,
}

// A report in numbers alone, for the run, the single step and the logged run alike.
impl From<Report> for Lc3Report {
    ghost from_gives = { λ report r. r ≡ report_of report };

    fn from(report: Report) -> Lc3Report {
        let ending = report.ending;
        let index = ending.index();
        Lc3Report {
            steps: report.steps,
            keys: report.keys as u64,
            shown: report.shown as u64,
            index: index as u64,
            refusal: ending.refusal(),
            stop: ending.stop(),
        }
    }
}

// What a run answers, in numbers alone.
impl From<Answer> for Lc3Answer {
    ghost from_gives = { λ a r. (memory output : List ℕ) → answered r memory output
        ≡ answer_of (end_of a memory output) };

    fn from(a: Answer) -> Lc3Answer {
        let r = Lc3Report::from(a.report);
        Lc3Answer {
            machine: a.machine,
            steps: r.steps,
            keys: r.keys,
            shown: r.shown,
            index: r.index,
            refusal: r.refusal,
            stop: r.stop,
        }
    }
}

// What a call answers that is turned down: the record as handed in, and zero counts. It is made by itself, so that the
// compiler need not bring it together with the answer of a run.
#[tactic(auto, unfolding(run::specs::Run::begin, run::specs::Run::ended_by))]
pub fn refused(m: Machine, refusal: Refusal) -> Lc3Answer
    ensures { (memory times bytes output : List ℕ) → answered result memory output
        ≡ answer_of (ended_by (Refused refusal) (begin (start_of m memory times bytes output))) }
{
    let index = refusal.index();
    Lc3Answer {
        machine: m,
        steps: 0,
        keys: 0,
        shown: 0,
        index: index as u64,
        refusal: u32::from(refusal),
        stop: 0,
    }
}
