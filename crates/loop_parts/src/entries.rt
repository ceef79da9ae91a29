// The entry of a step: its three words in the log.
ghost use Rattle.std.specs.Prelude.{◌≡◌, [], ◌∷◌, ◌+◌, ◌≤◌, length};
ghost use Rattle.std.proofs.lemmas.List.Edits.{sets};

// PC before the step, the word fetched and the reason.
pub fn write_entry(log: &mut [u16], at: usize, pc: u16, word: u16, reason: u16)
    requires { at + 3 ≤ length log.old }
    ensures { log.new ≡ sets log.old at (pc ∷ word ∷ reason ∷ []) }
{
    log[at] = pc;
    log[at + 1] = word;
    log[at + 2] = reason;
}
