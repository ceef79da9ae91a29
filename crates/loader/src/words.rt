// Words and their bytes, high byte first.
ghost use Rattle.std.specs.Prelude.{◌≡◌, ◌*◌, length};
ghost use Rattle.object.specs.File.{words_of, bytes_of};

// Reads a word from each two bytes.
pub fn read_words(bytes: &[u8], words: &mut [u16])
    requires { length bytes.now ≡ 2 * length words.old }
    ensures { words.new ≡ words_of bytes.now }
{
    for (k, word) in words.iter_mut().enumerate() {
        *word = u16::from_be_bytes([bytes[2 * k], bytes[2 * k + 1]]);
    }
}

// Writes each word as two bytes.
pub fn write_words(words: &[u16], bytes: &mut [u8])
    requires { length bytes.old ≡ 2 * length words.now }
    ensures { bytes.new ≡ bytes_of words.now }
{
    for (k, word) in words.iter().enumerate() {
        bytes[2 * k..2 * k + 2].copy_from_slice(&word.to_be_bytes());
    }
}
