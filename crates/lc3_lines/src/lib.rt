// Lines of text for hosts in C and Rust: the line of a word (M16), its length (M20) and the lines of a range of
// memory (M19). Every call accepts every argument; the refusals are those of include/fanthrig/lc3.h.
#![tactic(auto)]

ghost use Rattle.std.specs.Prelude.{◌≡◌, length};
ghost use Rattle.lent.specs.Lent.{host_counted, written_whole};
ghost use Rattle.line.specs.Line.{line_of};
ghost use Rattle.lines.specs.Page.{page_of};

use lent::Lc3Counted;
use line::lengths::line_length;
use lines::line;
use lines::page::page;

// The line of a word, at the start of the output.
pub fn lc3_line(word: u16, output: &mut [u8]) -> Lc3Counted
    ensures { host_counted result output.new ≡ written_whole (line_of word) output.old }
{
    Lc3Counted::from(line(word, output))
}

// The byte count of the line of a word, its line feed included.
pub fn lc3_line_length(word: u16) -> usize
    ensures { result ≡ length (line_of word) }
{
    line_length(word)
}

// The lines of `count` words from `first` on, at the start of the output.
pub fn lc3_page(memory: &[u16], first: u16, count: usize, output: &mut [u8]) -> Lc3Counted
    ensures { host_counted result output.new ≡ page_of memory.now first count output.old }
{
    Lc3Counted::from(page(memory, first, count, output))
}
