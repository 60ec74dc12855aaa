// The working floats, by the names of the fields in src/presolve/work.rs and model.rs of microlp 0.7.0, changed.
// A variable's four bounds stand side by side, as do a row's lo, hi, fold_scale and shift.
// An impl for each field: it says in its ghost members which list of the definition it is, and no macro
// of the repository may write impls.
ghost use Rattle.std.proofs.Common.{arith};
ghost use Rattle.std.specs.Prelude.{◌≡◌, ◌+◌, ◌*◌, slice_index_or};
ghost use Rattle.std.specs.Float.{nan};
ghost use Rattle.space.specs.Store.{floats_of, HoldsF, put_wlo, put_whi, put_elo, put_ehi, put_lo, put_hi, put_fold_scale, put_shift, put_written, put_rewritten, put_kept, put_bound, put_coeffs};
ghost use Rattle.space.specs.Blocks.{bound_at, bound_put, coeffs_at, coeffs_put, ehi_at, ehi_put, elo_at, elo_put, fold_scale_at, fold_scale_put, hi_at, hi_put, kept_at};
ghost use Rattle.space.specs.Blocks.{kept_put, lo_at, lo_put, rewritten_at_lem, rewritten_put, shift_at, shift_put, whi_at, whi_put, wlo_at, wlo_put, written_at};
ghost use Rattle.space.specs.Blocks.{written_put};

use crate::Context;
use crate::field::Field;

// Working lower bound of variable i.
pub struct Wlo;

impl Field for Wlo {
    type Word = f64;

    ghost holds = { HoldsF };

    ghost missing = { nan };

    ghost size = { λ s. s.vars };

    ghost place = { λ s i. 4 * i };

    ghost at = { λ s w i. slice_index_or (floats_of s w).wlo i nan };

    ghost puts = { λ s w i x w'. floats_of s w' ≡ put_wlo i x (floats_of s w) };

    fn place(_floats: &[f64], _cx: Context, i: usize) -> usize {
        4 * i
    }

    ghost within = { λ s w i h k. omega (arith, h, k) };

    ghost reads = { λ s w i h k. wlo_at s w i h };

    ghost writes = { λ s w i x h k. wlo_put s w i x h k };
}

// Working upper bound.
pub struct Whi;

impl Field for Whi {
    type Word = f64;

    ghost holds = { HoldsF };

    ghost missing = { nan };

    ghost size = { λ s. s.vars };

    ghost place = { λ s i. 4 * i + 1 };

    ghost at = { λ s w i. slice_index_or (floats_of s w).whi i nan };

    ghost puts = { λ s w i x w'. floats_of s w' ≡ put_whi i x (floats_of s w) };

    fn place(_floats: &[f64], _cx: Context, i: usize) -> usize {
        4 * i + 1
    }

    ghost within = { λ s w i h k. omega (arith, h, k) };

    ghost reads = { λ s w i h k. whi_at s w i h };

    ghost writes = { λ s w i x h k. whi_put s w i x h k };
}

// Emitted lower bound.
pub struct Elo;

impl Field for Elo {
    type Word = f64;

    ghost holds = { HoldsF };

    ghost missing = { nan };

    ghost size = { λ s. s.vars };

    ghost place = { λ s i. 4 * i + 2 };

    ghost at = { λ s w i. slice_index_or (floats_of s w).elo i nan };

    ghost puts = { λ s w i x w'. floats_of s w' ≡ put_elo i x (floats_of s w) };

    fn place(_floats: &[f64], _cx: Context, i: usize) -> usize {
        4 * i + 2
    }

    ghost within = { λ s w i h k. omega (arith, h, k) };

    ghost reads = { λ s w i h k. elo_at s w i h };

    ghost writes = { λ s w i x h k. elo_put s w i x h k };
}

// Emitted upper bound.
pub struct Ehi;

impl Field for Ehi {
    type Word = f64;

    ghost holds = { HoldsF };

    ghost missing = { nan };

    ghost size = { λ s. s.vars };

    ghost place = { λ s i. 4 * i + 3 };

    ghost at = { λ s w i. slice_index_or (floats_of s w).ehi i nan };

    ghost puts = { λ s w i x w'. floats_of s w' ≡ put_ehi i x (floats_of s w) };

    fn place(_floats: &[f64], _cx: Context, i: usize) -> usize {
        4 * i + 3
    }

    ghost within = { λ s w i h k. omega (arith, h, k) };

    ghost reads = { λ s w i h k. ehi_at s w i h };

    ghost writes = { λ s w i x h k. ehi_put s w i x h k };
}

// Lower side of row i.
pub struct Lo;

impl Field for Lo {
    type Word = f64;

    ghost holds = { HoldsF };

    ghost missing = { nan };

    ghost size = { λ s. s.rows };

    ghost place = { λ s i. 4 * s.vars + 4 * i };

    ghost at = { λ s w i. slice_index_or (floats_of s w).lo i nan };

    ghost puts = { λ s w i x w'. floats_of s w' ≡ put_lo i x (floats_of s w) };

    fn place(_floats: &[f64], cx: Context, i: usize) -> usize {
        4 * cx.vars + 4 * i
    }

    ghost within = { λ s w i h k. omega (arith, h, k) };

    ghost reads = { λ s w i h k. lo_at s w i h };

    ghost writes = { λ s w i x h k. lo_put s w i x h k };
}

// Upper side.
pub struct Hi;

impl Field for Hi {
    type Word = f64;

    ghost holds = { HoldsF };

    ghost missing = { nan };

    ghost size = { λ s. s.rows };

    ghost place = { λ s i. 4 * s.vars + 4 * i + 1 };

    ghost at = { λ s w i. slice_index_or (floats_of s w).hi i nan };

    ghost puts = { λ s w i x w'. floats_of s w' ≡ put_hi i x (floats_of s w) };

    fn place(_floats: &[f64], cx: Context, i: usize) -> usize {
        4 * cx.vars + 4 * i + 1
    }

    ghost within = { λ s w i h k. omega (arith, h, k) };

    ghost reads = { λ s w i h k. hi_at s w i h };

    ghost writes = { λ s w i x h k. hi_put s w i x h k };
}

// Sum of the magnitudes folded out.
pub struct FoldScale;

impl Field for FoldScale {
    type Word = f64;

    ghost holds = { HoldsF };

    ghost missing = { nan };

    ghost size = { λ s. s.rows };

    ghost place = { λ s i. 4 * s.vars + 4 * i + 2 };

    ghost at = { λ s w i. slice_index_or (floats_of s w).fold_scale i nan };

    ghost puts = { λ s w i x w'. floats_of s w' ≡ put_fold_scale i x (floats_of s w) };

    fn place(_floats: &[f64], cx: Context, i: usize) -> usize {
        4 * cx.vars + 4 * i + 2
    }

    ghost within = { λ s w i h k. omega (arith, h, k) };

    ghost reads = { λ s w i h k. fold_scale_at s w i h };

    ghost writes = { λ s w i x h k. fold_scale_put s w i x h k };
}

// Signed sum of the terms folded out.
pub struct Shift;

impl Field for Shift {
    type Word = f64;

    ghost holds = { HoldsF };

    ghost missing = { nan };

    ghost size = { λ s. s.rows };

    ghost place = { λ s i. 4 * s.vars + 4 * i + 3 };

    ghost at = { λ s w i. slice_index_or (floats_of s w).shift i nan };

    ghost puts = { λ s w i x w'. floats_of s w' ≡ put_shift i x (floats_of s w) };

    fn place(_floats: &[f64], cx: Context, i: usize) -> usize {
        4 * cx.vars + 4 * i + 3
    }

    ghost within = { λ s w i h k. omega (arith, h, k) };

    ghost reads = { λ s w i h k. shift_at s w i h };

    ghost writes = { λ s w i x h k. shift_put s w i x h k };
}

// The binding's magnitude as written.
pub struct Written;

impl Field for Written {
    type Word = f64;

    ghost holds = { HoldsF };

    ghost missing = { nan };

    ghost size = { λ s. s.rows };

    ghost place = { λ s i. 4 * s.vars + 4 * s.rows + i };

    ghost at = { λ s w i. slice_index_or (floats_of s w).written i nan };

    ghost puts = { λ s w i x w'. floats_of s w' ≡ put_written i x (floats_of s w) };

    fn place(_floats: &[f64], cx: Context, i: usize) -> usize {
        4 * cx.vars + 4 * cx.rows + i
    }

    ghost within = { λ s w i h k. omega (arith, h, k) };

    ghost reads = { λ s w i h k. written_at s w i h };

    ghost writes = { λ s w i x h k. written_put s w i x h };
}

// As rewritten.
pub struct Rewritten;

impl Field for Rewritten {
    type Word = f64;

    ghost holds = { HoldsF };

    ghost missing = { nan };

    ghost size = { λ s. s.rows };

    ghost place = { λ s i. 4 * s.vars + 5 * s.rows + i };

    ghost at = { λ s w i. slice_index_or (floats_of s w).rewritten i nan };

    ghost puts = { λ s w i x w'. floats_of s w' ≡ put_rewritten i x (floats_of s w) };

    fn place(_floats: &[f64], cx: Context, i: usize) -> usize {
        4 * cx.vars + 5 * cx.rows + i
    }

    ghost within = { λ s w i h k. omega (arith, h, k) };

    ghost reads = { λ s w i h k. rewritten_at_lem s w i h };

    ghost writes = { λ s w i x h k. rewritten_put s w i x h };
}

// What the binding keeps.
pub struct Kept;

impl Field for Kept {
    type Word = f64;

    ghost holds = { HoldsF };

    ghost missing = { nan };

    ghost size = { λ s. s.rows };

    ghost place = { λ s i. 4 * s.vars + 6 * s.rows + i };

    ghost at = { λ s w i. slice_index_or (floats_of s w).kept i nan };

    ghost puts = { λ s w i x w'. floats_of s w' ≡ put_kept i x (floats_of s w) };

    fn place(_floats: &[f64], cx: Context, i: usize) -> usize {
        4 * cx.vars + 6 * cx.rows + i
    }

    ghost within = { λ s w i h k. omega (arith, h, k) };

    ghost reads = { λ s w i h k. kept_at s w i h };

    ghost writes = { λ s w i x h k. kept_put s w i x h };
}

// The bound that a rewritten row is emitted with.
pub struct Bound;

impl Field for Bound {
    type Word = f64;

    ghost holds = { HoldsF };

    ghost missing = { nan };

    ghost size = { λ s. s.rows };

    ghost place = { λ s i. 4 * s.vars + 7 * s.rows + i };

    ghost at = { λ s w i. slice_index_or (floats_of s w).bound i nan };

    ghost puts = { λ s w i x w'. floats_of s w' ≡ put_bound i x (floats_of s w) };

    fn place(_floats: &[f64], cx: Context, i: usize) -> usize {
        4 * cx.vars + 7 * cx.rows + i
    }

    ghost within = { λ s w i h k. omega (arith, h, k) };

    ghost reads = { λ s w i h k. bound_at s w i h };

    ghost writes = { λ s w i x h k. bound_put s w i x h };
}

// Coefficient at place i of the terms.
pub struct Coeffs;

impl Field for Coeffs {
    type Word = f64;

    ghost holds = { HoldsF };

    ghost missing = { nan };

    ghost size = { λ s. s.terms };

    ghost place = { λ s i. 4 * s.vars + 8 * s.rows + i };

    ghost at = { λ s w i. slice_index_or (floats_of s w).coeffs i nan };

    ghost puts = { λ s w i x w'. floats_of s w' ≡ put_coeffs i x (floats_of s w) };

    fn place(_floats: &[f64], cx: Context, i: usize) -> usize {
        4 * cx.vars + 8 * cx.rows + i
    }

    ghost within = { λ s w i h k. omega (arith, h, k) };

    ghost reads = { λ s w i h k. coeffs_at s w i h };

    ghost writes = { λ s w i x h k. coeffs_put s w i x h };
}
