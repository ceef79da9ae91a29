// A writer puts each character straight to its place in a lent output.
ghost use Rattle.std.specs.Prelude.{[], ◌∷◌};
ghost use Rattle.text.specs.Writing.{Fits, Wrote};

// A lent output, and the place in it where the next character goes.
#[derive(Drop)]
pub struct Writer<'a> {
    pub output: &'a mut [u8],
    pub at: usize,
}

impl<'a> Writer<'a> {
    // One character.
    #[inline(always)]
    pub fn put(&mut self, character: u8)
        requires { Fits self.old (character ∷ []) }
        ensures { Wrote self.old (character ∷ []) self.new }
    {
        self.output[self.at] = character;
        self.at += 1;
    }

    // Each character of a text in turn: by `copy_from_slice` a line took 12 instructions more, 122 for 110.
    #[inline(always)]
    pub fn put_text(&mut self, text: &[u8])
        requires { Fits self.old text.now }
        ensures { Wrote self.old text.now self.new }
    {
        for character in text {
            self.put(*character);
        }
    }
}
