// The calls of `lc3_lines`, exported to hosts in C and Rust.
#![tactic(auto)]

ghost use Rattle.std.specs.Prelude.{◌≡◌, length};
ghost use Rattle.lent.specs.Lent.{host_counted, written_whole};
ghost use Rattle.line.specs.Line.{line_of};
ghost use Rattle.lines.specs.Page.{page_of};

use lent::Lc3Counted;

// The line of a word, at the start of the output.
#[unsafe(no_mangle)]
pub extern "C" fn lc3_line(word: u16, output: &mut [u8]) -> Lc3Counted
    ensures { host_counted result output.new ≡ written_whole (line_of word) output.old }
{
    lc3_lines::lc3_line(word, output)
}

// The byte count of the line of a word, its line feed included.
#[unsafe(no_mangle)]
pub extern "C" fn lc3_line_length(word: u16) -> usize
    ensures { result ≡ length (line_of word) }
{
    lc3_lines::lc3_line_length(word)
}

// The lines of `count` words from `first` on, at the start of the output.
#[unsafe(no_mangle)]
pub extern "C" fn lc3_page(
    memory: &[u16],
    first: u16,
    count: usize,
    output: &mut [u8],
) -> Lc3Counted
    ensures { host_counted result output.new ≡ page_of memory.now first count output.old }
{
    lc3_lines::lc3_page(memory, first, count, output)
}
