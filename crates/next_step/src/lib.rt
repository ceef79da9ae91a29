// What the step that a run would make next does, told without making it: by which rule, the word fetched, and the lent
// words that it takes and those that it stores to. Nothing that is lent is altered.
#![tactic(auto)]

ghost use Rattle.std.specs.Prelude.{◌≡◌, List, ℕ, length};
ghost use Rattle.machine.specs.Edition.{edition_of};
ghost use Rattle.machine.specs.Keys.{keys_due};
ghost use Rattle.machine.specs.Rules.{is_interrupt, fetched_word_by};
ghost use Rattle.machine.specs.Step.{step_by};
ghost use Rattle.run.specs.Call.{start_of};
ghost use Rattle.telling.specs.Told.{untold, told_of, told_by, told_next};

use machine::{Control, Machine, Memory, Rule};
use run::{Ending, Refusal};
use telling::{Told, Touched};

pub mod lists;
pub mod touching;

// No step would be made.
fn nothing(ending: Ending) -> Told
    ensures { result ≡ untold ending }
{
    let reads = lists::none();
    let writes = lists::none();
    let touched = Touched {
        rule: Rule::Instruction,
        reads,
        writes,
    };
    Told {
        ending,
        word: 0,
        touched,
    }
}

fn is_interrupt(rule: Rule) -> bool
    ensures { result ≡ is_interrupt rule }
{
    matches!(rule, Rule::Keyboard | Rule::Timer)
}

// The word fetched by a step of this rule: 0 at an interrupt, and where the fetch is denied.
fn fetched_word(second: bool, rule: Rule, m: Machine, memory: &Memory) -> u16
    ensures { result ≡ fetched_word_by (edition_of second) rule m memory.now }
{
    if is_interrupt(rule) {
        return 0;
    }
    if step_parts::protection::is_denied(second, m.psr, m.pc) {
        return 0;
    }
    step_parts::memory::word_at(memory, m.pc)
}

// The next step of a machine that is not halted: keys arrive and the timer's count falls, as in every step.
fn tell_step(second: bool, m: Machine, memory: &Memory, times: &[u64], bytes: &[u8]) -> Told
    requires times_len { length times.now ≡ length bytes.now }
    ensures { result ≡ told_of (edition_of second) m memory.now (step_by (edition_of second)
        (keys_due m.clock times.now bytes.now) m memory.now) }
{
    let regs = m.regs;
    let a = step_parts::keys::arrive(Control::from(m), m.clock, times, bytes, 0);
    let c = step_parts::timer::count_down(a.control);
    let pending = step_parts::interrupts::pending_interrupt(c);
    let touched = touching::interrupt_or_obey(second, c, &regs, memory, pending);
    let rule = touched.rule;
    let word = fetched_word(second, rule, m, memory);
    Told {
        ending: Ending::Done,
        word,
        touched,
    }
}

// What the next step of a call that is accepted does. The one stop that no step decides is tested: halted.
fn tell_accepted(second: bool, m: Machine, memory: &Memory, times: &[u64], bytes: &[u8]) -> Told
    requires times_len { length times.now ≡ length bytes.now }
    ensures { (output : List ℕ) → result ≡ told_next (edition_of second)
        (start_of m memory.now times.now bytes.now output) }
{
    if m.devices.mcr < 0x8000 {
        return nothing(Ending::Halted);
    }
    tell_step(second, m, memory, times, bytes)
}

// What a run by the third edition's rules, or the second's, would do in its next step. It is turned down as a run of
// one step is. There is no output, since the step is not made: whatever it is, the same is told.
pub fn tell(second: bool, m: Machine, memory: &[u16], times: &[u64], bytes: &[u8]) -> Told
    ensures { (output : List ℕ) → result ≡ told_by (edition_of second)
        (start_of m memory.now times.now bytes.now output) }
{
    let Some(whole) = memory.as_array() else {
        return nothing(Ending::Refused(Refusal::MemorySize));
    };
    match refusals::admission(m, whole, times, bytes, 1) {
        Ok(()) => tell_accepted(second, m, whole, times, bytes),
        Err(refusal) => nothing(Ending::Refused(refusal)),
    }
}
