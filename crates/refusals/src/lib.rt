// How a run is turned down: 11 to 15 and 19, under the first that applies and never otherwise.
#![tactic(auto)]

ghost use Rattle.std.specs.Prelude.{◌≡◌, List, ℕ};
ghost use Rattle.run.specs.Run.{begin, ended_by};
ghost use Rattle.run.specs.Refusals.{undefined_timer, undefined_devices, undefined_record, times_admission};
ghost use Rattle.run.specs.Refusals.{admission_of};
ghost use Rattle.run.specs.Call.{start_of, end_of};
ghost use Rattle.run.specs.declared.Ending.TheVariants.{Refused};

use machine::{Devices, Machine};
use run::{Answer, Ending, Refusal, Report};

// 12: an undefined bit of the timer's status, a count above the interval, or a count of zero with an interval set.
fn undefined_timer(status: u16, interval: u16, count: u16) -> bool
    ensures { result ≡ undefined_timer (record { status = status; interval = interval; count = count }) }
{
    if status % 0x4000 != 0 {
        return true;
    }
    if interval < count {
        return true;
    }
    if count != 0 {
        return false;
    }
    interval != 0
}

// 12: an undefined bit of a device register, a busy count above 8, or a timer that no step leaves.
fn undefined_devices(d: Devices) -> bool
    ensures { result ≡ undefined_devices d }
{
    if d.kbsr % 0x4000 != 0 {
        return true;
    }
    if 0x0100 <= d.kbdr {
        return true;
    }
    if d.mcr % 0x8000 != 0 {
        return true;
    }
    if 8 < d.busy {
        return true;
    }
    undefined_timer(d.timer_status, d.timer_interval, d.timer_count)
}

// 12: an undefined bit, a count of display or timer that no step leaves, or a clock above 2^48.
fn undefined_record(m: Machine) -> bool
    ensures { result ≡ undefined_record m }
{
    let psr = step_parts::psr::defined_psr(m.psr);
    if psr != m.psr {
        return true;
    }
    let devices = m.devices;
    if undefined_devices(devices) {
        return true;
    }
    0x1_0000_0000_0000 < m.clock
}

// 15 and 19, entry by entry from the first: a time is below the clock, or below the one before it. No entry that passed
// is below the clock, so that one comparison, with the last of them, tells whether the next passes.
fn times_admission(clock: u64, times: &[u64]) -> Result<(), Refusal>
    ensures { result ≡ times_admission clock clock 0 times.now }
{
    let mut last = clock;
    for (k, &t) in times.iter().enumerate() {
        if t < last {
            if t < clock {
                return Err(Refusal::TimeBelowClock(k));
            }
            return Err(Refusal::TimesOutOfOrder(k));
        }
        last = t;
    }
    Ok(())
}

pub fn admission(
    m: Machine,
    memory: &[u16],
    times: &[u64],
    bytes: &[u8],
    n: u64,
) -> Result<(), Refusal>
    ensures { (output : List ℕ) → result
        ≡ admission_of (start_of m memory.now times.now bytes.now output) n }
{
    if memory.len() != 65536 {
        return Err(Refusal::MemorySize);
    }
    if undefined_record(m) {
        return Err(Refusal::UndefinedRecord);
    }
    if 1048576 < n {
        return Err(Refusal::TooManySteps);
    }
    if 0x1_0000_0000_0000 - n < m.clock {
        return Err(Refusal::TooManySteps);
    }
    if times.len() != bytes.len() {
        return Err(Refusal::UnequalLists);
    }
    times_admission(m.clock, times)
}

// The answer to a call that is turned down: the record as handed in, and zero counts.
#[tactic(auto, unfolding(run::specs::Run::begin, run::specs::Run::ended_by))]
pub fn refused(m: Machine, refusal: Refusal) -> Answer
    ensures { (memory times bytes output : List ℕ) → end_of result memory output
        ≡ ended_by (Refused refusal) (begin (start_of m memory times bytes output)) }
{
    let report = Report::stopped(Ending::Refused(refusal));
    Answer { machine: m, report }
}
