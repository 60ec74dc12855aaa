// Where a text goes, byte by byte: into a count, or into a lent buffer.
ghost use Rattle.std.specs.Prelude.{◌≡◌, ℕ, List, [], ◌∷◌, ◌++◌, refl};
ghost use Rattle.std.proofs.Common.{◌∙◌};
ghost use Rattle.print_result.specs.Sink.{BytesCounted, counted_none, counted_joined, BytesFilled, filled_none, filled_joined};

pub(crate) trait Sink {
    // Relates the sink before a text, the text, and the sink after it.
    ghost wrote: { Self → List ℕ → Self → Type 0 };

    fn put(&mut self, byte: u8)
        ensures { wrote self.old (byte ∷ []) self.new };

    ghost none: { (s : Self) → wrote s [] s };

    ghost joined: { (s t u : Self) (a b : List ℕ) → wrote s a t → wrote t b u → wrote s (a ++ b) u };
}

// Only counts, up to the largest number.
#[derive(Clone, Copy)]
pub(crate) struct Count(pub(crate) usize);

impl Sink for Count {
    ghost wrote = { λ s t u. BytesCounted t s.0 u.0 };

    ghost none = { λ s. counted_none s.0 };

    ghost joined = { λ s t u a b. counted_joined };

    fn put(&mut self, _byte: u8) {
        self.0 = self.0.saturating_add(1);
    }
}

// Writes from a place on. What lies past the end is left out. A place beside the bytes, and no slice that
// grows shorter: the caller's whole slice is what the promise is about.
#[derive(Drop)]
pub(crate) struct Buffer<'a> {
    pub(crate) bytes: &'a mut [u8],
    pub(crate) place: usize,
}

impl Sink for Buffer<'_> {
    ghost wrote = { λ s t u. (u.bytes.ghost_name ≡ s.bytes.ghost_name)
        × BytesFilled t s.bytes.now s.place u.bytes.now u.place };

    ghost none = { λ s. (refl, filled_none s.bytes.now s.place) };

    ghost joined = { λ s t u a b p q. (q.0 ∙ p.0, filled_joined p.1 q.1) };

    fn put(&mut self, byte: u8) {
        if self.place < self.bytes.len() {
            let place = self.place;
            self.bytes[place] = byte;
            self.place = place + 1;
        }
    }
}
