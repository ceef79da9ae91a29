// Puts the ready-made monitor into lent memory: the words x0000 to x01FF, which lead to its routines, and the routines
// from x0200 on. `vectors` makes such words for any routines.
#![tactic(auto)]

ghost use Rattle.std.specs.Prelude.{◌≡◌};
ghost use Rattle.lent.specs.Lent.{refusal_of};
ghost use Rattle.monitor.specs.Vectors.{ours};
ghost use Rattle.monitor.specs.Install.{filling, vectors_of, install_of};

use lent::Refusal;
use monitor::Routines;

pub mod listing;
pub mod table;

// Where the monitor's own routines are.
pub fn ours() -> Routines
    ensures { result ≡ ours }
{
    Routines {
        getc: 0x0200,
        out: 0x0204,
        puts: 0x020C,
        input: 0x0228,
        putsp: 0x023D,
        halt: 0x026D,
        trap: 0x027C,
        exception: 0x027C,
        interrupt: 0x027F,
    }
}

// The generator: writes the words x0000 to x01FF for these routines to the start of a lent buffer, where they fit.
pub fn vectors(r: Routines, lent: &mut [u16]) -> Result<(), Refusal>
    ensures { filling (refusal_of result) lent.new ≡ vectors_of r lent.old }
{
    if lent.len() < 512 {
        return Err(Refusal::NoRoom);
    }
    lent[..512].copy_from_slice(&table::table_for(r));
    Ok(())
}

// Puts the monitor into lent memory of 65,536 words.
pub fn install(memory: &mut [u16]) -> Result<(), Refusal>
    ensures { filling (refusal_of result) memory.new ≡ install_of memory.old }
{
    if memory.len() != 65536 {
        return Err(Refusal::MemorySize);
    }
    memory[..512].copy_from_slice(&table::our_table());
    let routines = listing::our_routines();
    memory[512..512 + routines.len()].copy_from_slice(&routines);
    Ok(())
}
