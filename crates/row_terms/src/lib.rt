// An emitted row's terms, read where they stand: a part of the model's lists or of the rewritten ones, by the row's mark. Nothing
// is copied, and any mark and any span may be asked for.
#![tactic(auto)]

ghost use Rattle.std.specs.Prelude.{◌≡◌};
ghost use Rattle.std.proofs.Math.Seq.{slice};
ghost use Rattle.row_terms.specs.RowMark.{marked};
ghost use Rattle.row_terms.specs.Parts.{row_part};
ghost use Rattle.row_terms.specs.Place.{place_of};

// Where a row's terms stand: count of them, from start on, in the rewritten lists where rewritten is 1, in the model's where it is 0.
// A byte, and no bool, since C is handed it as it is: what the C call promises is an equation with this record.
#[derive(Clone, Copy)]
pub struct Place {
    pub rewritten: u8,
    pub start: usize,
    pub count: usize,
}

// What is emitted of a row: its mark, 0 for a row as written, and the span of its terms, from up to upto. The mark is a byte, as the
// caller's slice has it.
#[derive(Clone, Copy)]
pub struct Span {
    pub mark: u8,
    pub from: usize,
    pub upto: usize,
}

// The items at from up to upto, as far as there are any.
#[tactic(auto, using(crate::specs::Parts::clipped))]
fn clipped<T>(l: &[T], from: usize, upto: usize) -> &[T]
    ensures { result.now ≡ slice from upto l.now }
{
    let end = upto.min(l.len());
    &l[from.min(end)..end]
}

impl Span {
    // The row's part of a list of terms, as their variables or their coefficients, in the model's list or in the rewritten one.
    #[tactic(auto, using(crate::specs::RowMark::is_rewritten_lem, crate::specs::RowMark::is_written), unfolding(floats::specs::Num::choose))]
    pub fn part<'a, T>(self, model: &'a [T], rewritten: &'a [T]) -> &'a [T]
        ensures { result.now ≡ row_part (marked self.mark) self.from self.upto model.now rewritten.now }
    {
        if self.mark != 0 {
            clipped(rewritten, self.from, self.upto)
        } else {
            clipped(model, self.from, self.upto)
        }
    }

    // The place of the row's terms, as far as both lists have them, for a caller who cannot be handed a part of a slice. No terms
    // stand at the place 0, which every list has. The four slices are handed in loose, as C hands them in.
    #[tactic(auto, unfolding(crate::specs::Place::place_of, crate::specs::Place::start_of, crate::specs::RowMark::mark, crate::specs::RowMark::marked, floats::specs::Num::choose))]
    pub fn place(
        self,
        index: &[usize],
        coeff: &[f64],
        term_index: &[usize],
        term_coeff: &[f64],
    ) -> Place
        ensures { result ≡ place_of self.mark self.from self.upto index.now coeff.now term_index.now term_coeff.now }
    {
        let vars = self.part(index, term_index);
        let coeffs = self.part(coeff, term_coeff);
        let count = vars.len().min(coeffs.len());
        Place {
            rewritten: u8::from(self.mark != 0),
            start: if count == 0 { 0 } else { self.from },
            count,
        }
    }
}
