// A whole page of lines (M19): the lines of a range of memory, one after the other.
ghost use Rattle.std.specs.Prelude.{◌≡◌, ◌≤◌, length, MatchResult, Ok, Err};
ghost use Rattle.lent.specs.Lent.{counted};
ghost use Rattle.text.specs.Placing.{Put};
ghost use Rattle.lines.specs.Page.{lines_of, range_of, page_of};

use lent::Refusal;
use line::lengths::line_length;
use line::putting::put_line;

// The lines of `count` words from `first` on, from the output's start; the rest stays as lent. A page that is turned
// away leaves the output untouched.
pub fn page(memory: &[u16], first: u16, count: usize, output: &mut [u8]) -> Result<usize, Refusal>
    ensures { counted result output.new ≡ page_of memory.now first count output.old }
{
    let words = range(memory, first, count)?;
    if output.len() < lines_length(words) {
        return Err(Refusal::NoRoom);
    }
    Ok(put_lines(words, output))
}

// The `count` words from `first` on.
fn range(memory: &[u16], first: u16, count: usize) -> Result<&[u16], Refusal>
    ensures { MatchResult result (λ words. range_of memory.now first count ≡ Ok words.now)
        (λ refusal. range_of memory.now first count ≡ Err refusal) }
{
    if memory.len() != 65536 {
        return Err(Refusal::MemorySize);
    }
    let start = first as usize;
    if 65536 - start < count {
        return Err(Refusal::RangePastMemory);
    }
    let end = start + count;
    Ok(&memory[start..end])
}

// One pass over the words for the length.
fn lines_length(words: &[u16]) -> usize
    requires { length words.now ≤ 65536 }
    ensures { result ≡ length (lines_of words.now) }
{
    words.iter().map(|word| line_length(*word)).sum()
}

// One pass over the words for the characters.
fn put_lines(words: &[u16], output: &mut [u8]) -> usize
    requires { length (lines_of words.now) ≤ length output.old }
    ensures { Put 0 (lines_of words.now) output.old result output.new }
{
    let mut at = 0;
    for word in words {
        at = put_line(output, at, *word);
    }
    at
}
