// The calls that write lines: that of one memory word (M16), and a whole page of them (M19).
#![tactic(auto)]

ghost use Rattle.std.specs.Prelude.{◌≡◌, leb, length};
ghost use Rattle.lent.specs.Lent.{counted, written_whole};
ghost use Rattle.line.specs.Line.{line_of};

use lent::Refusal;
use line::lengths::line_length;
use line::putting::put_line;

pub mod page;

// The line of a word, from the output's start; the rest stays as lent. Where it does not fit, the output is untouched.
pub fn line(word: u16, output: &mut [u8]) -> Result<usize, Refusal>
    ensures { counted result output.new ≡ written_whole (line_of word) output.old }
{
    if !fits(word, output.len()) {
        return Err(Refusal::NoRoom);
    }
    Ok(put_line(output, 0, word))
}

// Whether the line of a word fits so many bytes. No line is longer than 17, so most calls need not ask for its length.
#[tactic(auto, using(line::proofs::LongestLine::longest_line))]
fn fits(word: u16, room: usize) -> bool
    ensures { result ≡ leb (length (line_of word)) room }
{
    17 <= room || line_length(word) <= room
}
