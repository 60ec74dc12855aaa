// The lent slices: whether a model goes into them, and where its parts go.
ghost use Rattle.std.specs.Prelude.{◌≡◌};
ghost use Rattle.model_file.specs.Reading.{SameSlices, lent, room_of};
ghost use Rattle.model_file.specs.Fills.{RowPlace, put_head, sizes};

use crate::{Header, ModelSlices, RowHead};

impl ModelSlices<'_> {
    // Whether a file with these sizes goes into the slices.
    pub(crate) fn has_room(&self, header: Header) -> bool
        ensures { result ≡ room_of header (lent self.now) }
    {
        let Header {
            vars,
            rows,
            terms,
            ..
        } = header;
        vars <= self.objective.len()
            && vars <= self.lower.len()
            && vars <= self.upper.len()
            && vars <= self.domain.len()
            && rows < self.starts.len()
            && terms <= self.index.len()
            && terms <= self.coeff.len()
            && rows <= self.cmp.len()
            && rows <= self.rhs.len()
    }

    // Row r, whose terms end at e.
    pub(crate) fn put_head(&mut self, r: usize, e: usize, x: RowHead)
        requires { RowPlace r (sizes (lent self.old)) }
        ensures same { SameSlices self.old self.new }
        ensures put { lent self.new ≡ put_head r e x (lent self.old) }
    {
        self.starts[r + 1] = e;
        self.cmp[r] = x.cmp;
        self.rhs[r] = x.rhs;
    }
}
