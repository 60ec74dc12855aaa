// What becomes of a row.
ghost use Rattle.std.specs.Prelude.{◌≡◌, ◌<◌};
ghost use Rattle.row_terms.specs.RowMark.{mark};
ghost use Rattle.space.specs.Store.{numbers_of, HoldsN};
ghost use Rattle.emit.specs.FateNumbers.{fate_is, number_of, keeps, emits, rewrites, FateIs};

use space::Context;

// A row's fate: trivially true, emitted as written, emitted rewritten and kept for validation, or dropped
// and kept. The slice that the caller lends has it as a number, 0 to 3 in this order.
#[derive(Clone, Copy, PartialEq, Eq)]
pub enum Fate {
    Trivial = 0,
    Written = 1,
    Rewritten = 2,
    Dropped = 3,
}

impl From<usize> for Fate {
    ghost from_gives = { λ number fate. fate ≡ fate_is number };

    fn from(number: usize) -> Fate {
        match number {
            0 => Fate::Trivial,
            1 => Fate::Written,
            2 => Fate::Rewritten,
            _ => Fate::Dropped,
        }
    }
}

impl From<Fate> for usize {
    ghost from_gives = { λ fate number. number ≡ number_of fate };

    fn from(fate: Fate) -> usize {
        fate as usize
    }
}

impl Fate {
    // Whether a row of this fate is kept for validation. It and `is_out` are alike by chance: each is a test of its own.
    pub(crate) fn is_kept(self) -> bool
        ensures { result ≡ keeps self }
    {
        matches!(self, Fate::Rewritten | Fate::Dropped)
    }

    // Whether a row of this fate is emitted.
    pub(crate) fn is_out(self) -> bool
        ensures { result ≡ emits self }
    {
        matches!(self, Fate::Written | Fate::Rewritten)
    }

    // Whether a row of this fate is emitted rewritten.
    pub(crate) fn is_rewritten(self) -> bool
        ensures { result ≡ rewrites self }
    {
        matches!(self, Fate::Rewritten)
    }

    // The mark of a row of this fate, where it is emitted: 0 written, 1 rewritten. A byte, as C's `emit_rewritten` has it.
    pub(crate) fn mark(self) -> u8
        ensures { result ≡ mark (rewrites self) }
    {
        u8::from(self.is_rewritten())
    }
}

// The fate of row r.
pub(crate) fn fate_of(numbers: &[usize], cx: Context, r: usize) -> Fate
    requires { (r < cx.rows) × HoldsN cx numbers.now }
    ensures { FateIs (numbers_of cx numbers.now).fate r result }
{
    Fate::from(space::get::<space::Fate>(numbers, cx, r))
}
