// The lent words that each plan takes and stores to, and by which rule: the accesses of crate `step_parts` without
// their effects. Each address is checked first.
ghost use Rattle.std.specs.Prelude.{◌≡◌, List, ℕ};
ghost use Rattle.machine.specs.Record.{whole};
ghost use Rattle.machine.specs.Edition.{edition_of, trapped};
ghost use Rattle.machine.specs.Outcome.{Reason, vector_of};
ghost use Rattle.machine.specs.Rules.{entry_rule};
ghost use Rattle.machine.specs.Entry.{stack_pointer_on_entry, entry};
ghost use Rattle.machine.specs.Access.{load_to_by, store_at_by, by_pointer_by};
ghost use Rattle.machine.specs.Return.{return};
ghost use Rattle.machine.specs.Step.{perform_by, obeyed_by, interrupted_or_obeyed_by};
ghost use Rattle.telling.specs.Told.{after_pointer, touched_in, untouched};

use crate::lists::{below, none, prepend, prepend_lent};
use machine::addresses::{ACCESS_VECTOR, ILLEGAL_VECTOR, PRIVILEGE_VECTOR};
use machine::{Control, Interrupt, Memory, Plan, Rule};
use step::planning::plan_for;
use step_parts::devices::{after_load, load};
use step_parts::entry::interrupt_rule;
use step_parts::memory::word_at;
use step_parts::protection::is_denied;
use step_parts::words::{next, register};
use telling::Touched;

// An instruction that touches no lent word but the one fetched.
fn untouched() -> Touched
    ensures { result ≡ untouched }
{
    let reads = none();
    let writes = none();
    Touched {
        rule: Rule::Instruction,
        reads,
        writes,
    }
}

// R6 when the pushes of an entry begin.
fn stack_pointer_on_entry(c: Control, regs: &[u16; 8]) -> u16
    ensures { (clock : ℕ) → result ≡ stack_pointer_on_entry (whole regs.now clock c) }
{
    if c.psr < 0x8000 {
        return register(regs, 6);
    }
    c.saved_ssp
}

// An entry takes its vector word alone, and pushes two.
fn enter(c: Control, regs: &[u16; 8], vector: u16, rule: Rule) -> Touched
    ensures { (clock pc psr : ℕ) (memory : List ℕ) (reason : Reason) → vector_of reason ≡ vector
        → entry_rule reason ≡ rule
        → result ≡ touched_in (entry reason pc psr (whole regs.now clock c) memory) }
{
    let reads = prepend(vector, none());
    let writes = below(stack_pointer_on_entry(c, regs));
    Touched {
        rule,
        reads,
        writes,
    }
}

fn load_to(second: bool, c: Control, regs: &[u16; 8], a: u16) -> Touched
    ensures { (clock r : ℕ) (memory : List ℕ) → result
        ≡ touched_in (load_to_by (edition_of second) r a (whole regs.now clock c) memory) }
{
    if is_denied(second, c.psr, a) {
        return enter(c, regs, ACCESS_VECTOR, Rule::Access);
    }
    let reads = prepend_lent(second, a, none());
    let writes = none();
    Touched {
        rule: Rule::Instruction,
        reads,
        writes,
    }
}

fn store_at(second: bool, c: Control, regs: &[u16; 8], a: u16) -> Touched
    ensures { (clock v : ℕ) (memory : List ℕ) → result
        ≡ touched_in (store_at_by (edition_of second) v a (whole regs.now clock c) memory) }
{
    if is_denied(second, c.psr, a) {
        return enter(c, regs, ACCESS_VECTOR, Rule::Access);
    }
    let reads = none();
    let writes = prepend_lent(second, a, none());
    Touched {
        rule: Rule::Instruction,
        reads,
        writes,
    }
}

// The same with one word taken before.
fn after_pointer(second: bool, a: u16, t: Touched) -> Touched
    ensures { result ≡ after_pointer (edition_of second) a t }
{
    let reads = prepend_lent(second, a, t.reads);
    let writes = t.writes;
    let rule = t.rule;
    Touched {
        rule,
        reads,
        writes,
    }
}

// LDI: the pointer is loaded, then the word that it points to.
fn load_by(second: bool, c: Control, regs: &[u16; 8], memory: &Memory, a: u16) -> Touched
    ensures { (clock r : ℕ) → result ≡ touched_in (by_pointer_by (edition_of second) a
        (load_to_by (edition_of second) r) (whole regs.now clock c) memory.now) }
{
    if is_denied(second, c.psr, a) {
        return enter(c, regs, ACCESS_VECTOR, Rule::Access);
    }
    let p = load(second, c, memory, a);
    after_pointer(second, a, load_to(second, after_load(c, a), regs, p))
}

// STI: the pointer is loaded, then the word that it points to is replaced.
fn store_by(second: bool, c: Control, regs: &[u16; 8], memory: &Memory, a: u16) -> Touched
    ensures { (clock v : ℕ) → result ≡ touched_in (by_pointer_by (edition_of second) a
        (store_at_by (edition_of second) v) (whole regs.now clock c) memory.now) }
{
    if is_denied(second, c.psr, a) {
        return enter(c, regs, ACCESS_VECTOR, Rule::Access);
    }
    let p = load(second, c, memory, a);
    after_pointer(second, a, store_at(second, after_load(c, a), regs, p))
}

// TRAP: by the third edition an entry; by the second it takes its vector word alone.
fn trap(second: bool, c: Control, regs: &[u16; 8], vector: u16) -> Touched
    ensures { (clock : ℕ) (memory : List ℕ) → result
        ≡ touched_in (trapped (edition_of second) vector (whole regs.now clock c) memory) }
{
    if second {
        let reads = prepend(vector, none());
        let writes = none();
        return Touched {
            rule: Rule::Instruction,
            reads,
            writes,
        };
    }
    enter(c, regs, vector, Rule::Trap)
}

// RTI pops two words, or is the privilege exception.
fn return_from_interrupt(c: Control, regs: &[u16; 8]) -> Touched
    ensures { (clock : ℕ) (memory : List ℕ) → result
        ≡ touched_in (return (whole regs.now clock c) memory) }
{
    if c.psr < 0x8000 {
        let sp = register(regs, 6);
        let reads = prepend(sp, prepend(next(sp), none()));
        let writes = none();
        return Touched {
            rule: Rule::Instruction,
            reads,
            writes,
        };
    }
    enter(c, regs, PRIVILEGE_VECTOR, Rule::Privilege)
}

fn perform(second: bool, c: Control, regs: &[u16; 8], memory: &Memory, plan: Plan) -> Touched
    ensures { (clock : ℕ) → result ≡ touched_in (perform_by (edition_of second) plan
        (whole regs.now clock c) memory.now) }
{
    match plan {
        Plan::Move(_, _, _) => untouched(),
        Plan::Put(_, _, _) => untouched(),
        Plan::Jump(_) => untouched(),
        Plan::Load(_, a) => load_to(second, c, regs, a),
        Plan::LoadBy(_, a) => load_by(second, c, regs, memory, a),
        Plan::Store(_, a) => store_at(second, c, regs, a),
        Plan::StoreBy(_, a) => store_by(second, c, regs, memory, a),
        Plan::Call(vector) => trap(second, c, regs, vector),
        Plan::Illegal => enter(c, regs, ILLEGAL_VECTOR, Rule::Illegal),
        Plan::Return => return_from_interrupt(c, regs),
    }
}

// The fetch is checked as any access is, and uses the lent word at any address.
fn obey(second: bool, c: Control, regs: &[u16; 8], memory: &Memory) -> Touched
    ensures { (clock : ℕ) → result ≡ touched_in (obeyed_by (edition_of second)
        (whole regs.now clock c) memory.now) }
{
    let pc = c.pc;
    if is_denied(second, c.psr, pc) {
        return enter(c, regs, ACCESS_VECTOR, Rule::Access);
    }
    let word = word_at(memory, pc);
    let plan = plan_for(second, regs, pc, c.psr, word::reading::read(word));
    let t = perform(second, c, regs, memory, plan);
    let reads = prepend(pc, t.reads);
    let writes = t.writes;
    let rule = t.rule;
    Touched {
        rule,
        reads,
        writes,
    }
}

pub fn interrupt_or_obey(
    second: bool,
    c: Control,
    regs: &[u16; 8],
    memory: &Memory,
    pending: Option<Interrupt>,
) -> Touched
    ensures { (clock : ℕ) → result ≡ touched_in (interrupted_or_obeyed_by (edition_of second) pending
        (whole regs.now clock c) memory.now) }
{
    match pending {
        None => obey(second, c, regs, memory),
        Some(i) => enter(c, regs, i.vector, interrupt_rule(i.vector)),
    }
}
