// The working numbers, by the names of the fields in src/presolve/work.rs and model.rs of microlp 0.7.0, changed, and the counts.
// A row's two marks stand side by side, as do its len and alive.
// An impl for each field: it says in its ghost members which list of the definition it is, and no macro
// of the repository may write impls.
// A flag is 0 or 1, since the caller lends a slice of numbers.
ghost use Rattle.std.proofs.Common.{arith};
ghost use Rattle.std.specs.Prelude.{◌≡◌, ◌+◌, ◌*◌, slice_index};
ghost use Rattle.space.specs.Store.{numbers_of, HoldsN, put_queued, put_dropped, put_tightened, put_fixed, put_rewrote, put_passes, put_dirty, put_coeff_dirty, put_queue};
ghost use Rattle.space.specs.Store.{put_wave, put_len, put_folded, put_alive, put_touched, put_binaries, put_fate, put_slot, put_bad_dec, put_bad_inc, put_vars, put_binary};
ghost use Rattle.space.specs.Blocks.{alive_at_lem, alive_put, bad_dec_at, bad_dec_put, bad_inc_at, bad_inc_put, binaries_at, binaries_put, binary_at_lem, binary_put};
ghost use Rattle.space.specs.Blocks.{coeff_dirty_at, coeff_dirty_put, dirty_at, dirty_put, dropped_at, dropped_put, fate_at, fate_put, fixed_at_lem, fixed_put, folded_at};
ghost use Rattle.space.specs.Blocks.{folded_put, len_at, len_put, passes_at, passes_put, queue_at, queue_put, queued_at, queued_put, rewrote_at, rewrote_put, slot_at};
ghost use Rattle.space.specs.Blocks.{slot_put, tightened_at, tightened_put, touched_at, touched_put, vars_at, vars_put, wave_at, wave_put};

use crate::Context;
use crate::field::Field;

// How many rows are queued for the next wave.
pub struct Queued;

impl Field for Queued {
    type Word = usize;

    ghost holds = { HoldsN };

    ghost missing = { 0 };

    ghost size = { λ s. 1 };

    ghost place = { λ s i. 0 + i };

    ghost at = { λ s m i. slice_index (numbers_of s m).queued i };

    ghost puts = { λ s m i x m'. numbers_of s m' ≡ put_queued i x (numbers_of s m) };

    fn place(_numbers: &[usize], _cx: Context, i: usize) -> usize {
        i
    }

    ghost within = { λ s m i h k. omega (arith, h, k) };

    ghost reads = { λ s m i h k. queued_at s m i h };

    ghost writes = { λ s m i x h k. queued_put s m i x h };
}

// Count 1, kept modulo 2^64, which it never reaches.
pub struct Dropped;

impl Field for Dropped {
    type Word = usize;

    ghost holds = { HoldsN };

    ghost missing = { 0 };

    ghost size = { λ s. 1 };

    ghost place = { λ s i. 1 + i };

    ghost at = { λ s m i. slice_index (numbers_of s m).dropped i };

    ghost puts = { λ s m i x m'. numbers_of s m' ≡ put_dropped i x (numbers_of s m) };

    fn place(_numbers: &[usize], _cx: Context, i: usize) -> usize {
        1 + i
    }

    ghost within = { λ s m i h k. omega (arith, h, k) };

    ghost reads = { λ s m i h k. dropped_at s m i h };

    ghost writes = { λ s m i x h k. dropped_put s m i x h };
}

// Count 2, kept modulo 2^64, which it never reaches.
pub struct Tightened;

impl Field for Tightened {
    type Word = usize;

    ghost holds = { HoldsN };

    ghost missing = { 0 };

    ghost size = { λ s. 1 };

    ghost place = { λ s i. 2 + i };

    ghost at = { λ s m i. slice_index (numbers_of s m).tightened i };

    ghost puts = { λ s m i x m'. numbers_of s m' ≡ put_tightened i x (numbers_of s m) };

    fn place(_numbers: &[usize], _cx: Context, i: usize) -> usize {
        2 + i
    }

    ghost within = { λ s m i h k. omega (arith, h, k) };

    ghost reads = { λ s m i h k. tightened_at s m i h };

    ghost writes = { λ s m i x h k. tightened_put s m i x h };
}

// Count 3, kept modulo 2^64, which it never reaches.
pub struct Fixed;

impl Field for Fixed {
    type Word = usize;

    ghost holds = { HoldsN };

    ghost missing = { 0 };

    ghost size = { λ s. 1 };

    ghost place = { λ s i. 3 + i };

    ghost at = { λ s m i. slice_index (numbers_of s m).fixed i };

    ghost puts = { λ s m i x m'. numbers_of s m' ≡ put_fixed i x (numbers_of s m) };

    fn place(_numbers: &[usize], _cx: Context, i: usize) -> usize {
        3 + i
    }

    ghost within = { λ s m i h k. omega (arith, h, k) };

    ghost reads = { λ s m i h k. fixed_at_lem s m i h };

    ghost writes = { λ s m i x h k. fixed_put s m i x h };
}

// Count 4, kept modulo 2^64, which it never reaches.
pub struct Rewrote;

impl Field for Rewrote {
    type Word = usize;

    ghost holds = { HoldsN };

    ghost missing = { 0 };

    ghost size = { λ s. 1 };

    ghost place = { λ s i. 4 + i };

    ghost at = { λ s m i. slice_index (numbers_of s m).rewrote i };

    ghost puts = { λ s m i x m'. numbers_of s m' ≡ put_rewrote i x (numbers_of s m) };

    fn place(_numbers: &[usize], _cx: Context, i: usize) -> usize {
        4 + i
    }

    ghost within = { λ s m i h k. omega (arith, h, k) };

    ghost reads = { λ s m i h k. rewrote_at s m i h };

    ghost writes = { λ s m i x h k. rewrote_put s m i x h };
}

// Waves run so far.
pub struct Passes;

impl Field for Passes {
    type Word = usize;

    ghost holds = { HoldsN };

    ghost missing = { 0 };

    ghost size = { λ s. 1 };

    ghost place = { λ s i. 5 + i };

    ghost at = { λ s m i. slice_index (numbers_of s m).passes i };

    ghost puts = { λ s m i x m'. numbers_of s m' ≡ put_passes i x (numbers_of s m) };

    fn place(_numbers: &[usize], _cx: Context, i: usize) -> usize {
        5 + i
    }

    ghost within = { λ s m i h k. omega (arith, h, k) };

    ghost reads = { λ s m i h k. passes_at s m i h };

    ghost writes = { λ s m i x h k. passes_put s m i x h };
}

// Whether row i is queued, 1 or 0.
pub struct Dirty;

impl Field for Dirty {
    type Word = usize;

    ghost holds = { HoldsN };

    ghost missing = { 0 };

    ghost size = { λ s. s.rows };

    ghost place = { λ s i. 6 + 2 * i };

    ghost at = { λ s m i. slice_index (numbers_of s m).dirty i };

    ghost puts = { λ s m i x m'. numbers_of s m' ≡ put_dirty i x (numbers_of s m) };

    fn place(_numbers: &[usize], _cx: Context, i: usize) -> usize {
        6 + 2 * i
    }

    ghost within = { λ s m i h k. omega (arith, h, k) };

    ghost reads = { λ s m i h k. dirty_at s m i h };

    ghost writes = { λ s m i x h k. dirty_put s m i x h k };
}

// Whether the coefficient pass has to look at row i, 1 or 0.
pub struct CoeffDirty;

impl Field for CoeffDirty {
    type Word = usize;

    ghost holds = { HoldsN };

    ghost missing = { 0 };

    ghost size = { λ s. s.rows };

    ghost place = { λ s i. 6 + 2 * i + 1 };

    ghost at = { λ s m i. slice_index (numbers_of s m).coeff_dirty i };

    ghost puts = { λ s m i x m'. numbers_of s m' ≡ put_coeff_dirty i x (numbers_of s m) };

    fn place(_numbers: &[usize], _cx: Context, i: usize) -> usize {
        6 + 2 * i + 1
    }

    ghost within = { λ s m i h k. omega (arith, h, k) };

    ghost reads = { λ s m i h k. coeff_dirty_at s m i h };

    ghost writes = { λ s m i x h k. coeff_dirty_put s m i x h k };
}

// Place i of the queue.
pub struct Queue;

impl Field for Queue {
    type Word = usize;

    ghost holds = { HoldsN };

    ghost missing = { 0 };

    ghost size = { λ s. s.rows };

    ghost place = { λ s i. 6 + 2 * s.rows + i };

    ghost at = { λ s m i. slice_index (numbers_of s m).queue i };

    ghost puts = { λ s m i x m'. numbers_of s m' ≡ put_queue i x (numbers_of s m) };

    fn place(_numbers: &[usize], cx: Context, i: usize) -> usize {
        6 + 2 * cx.rows + i
    }

    ghost within = { λ s m i h k. omega (arith, h, k) };

    ghost reads = { λ s m i h k. queue_at s m i h };

    ghost writes = { λ s m i x h k. queue_put s m i x h };
}

// Place i of the wave's rows.
pub struct Wave;

impl Field for Wave {
    type Word = usize;

    ghost holds = { HoldsN };

    ghost missing = { 0 };

    ghost size = { λ s. s.rows };

    ghost place = { λ s i. 6 + 3 * s.rows + i };

    ghost at = { λ s m i. slice_index (numbers_of s m).wave i };

    ghost puts = { λ s m i x m'. numbers_of s m' ≡ put_wave i x (numbers_of s m) };

    fn place(_numbers: &[usize], cx: Context, i: usize) -> usize {
        6 + 3 * cx.rows + i
    }

    ghost within = { λ s m i h k. omega (arith, h, k) };

    ghost reads = { λ s m i h k. wave_at s m i h };

    ghost writes = { λ s m i x h k. wave_put s m i x h };
}

// How many live terms row i has: they stand at the front of its span.
pub struct Len;

impl Field for Len {
    type Word = usize;

    ghost holds = { HoldsN };

    ghost missing = { 0 };

    ghost size = { λ s. s.rows };

    ghost place = { λ s i. 6 + 4 * s.rows + 2 * i };

    ghost at = { λ s m i. slice_index (numbers_of s m).len i };

    ghost puts = { λ s m i x m'. numbers_of s m' ≡ put_len i x (numbers_of s m) };

    fn place(_numbers: &[usize], cx: Context, i: usize) -> usize {
        6 + 4 * cx.rows + 2 * i
    }

    ghost within = { λ s m i h k. omega (arith, h, k) };

    ghost reads = { λ s m i h k. len_at s m i h };

    ghost writes = { λ s m i x h k. len_put s m i x h k };
}

// How many folded terms: they stand at the back of its span, the first one last.
pub struct Folded;

impl Field for Folded {
    type Word = usize;

    ghost holds = { HoldsN };

    ghost missing = { 0 };

    ghost size = { λ s. s.rows };

    ghost place = { λ s i. 6 + 6 * s.rows + i };

    ghost at = { λ s m i. slice_index (numbers_of s m).folded i };

    ghost puts = { λ s m i x m'. numbers_of s m' ≡ put_folded i x (numbers_of s m) };

    fn place(_numbers: &[usize], cx: Context, i: usize) -> usize {
        6 + 6 * cx.rows + i
    }

    ghost within = { λ s m i h k. omega (arith, h, k) };

    ghost reads = { λ s m i h k. folded_at s m i h };

    ghost writes = { λ s m i x h k. folded_put s m i x h };
}

// Whether row i is at work, 1 or 0.
pub struct Alive;

impl Field for Alive {
    type Word = usize;

    ghost holds = { HoldsN };

    ghost missing = { 0 };

    ghost size = { λ s. s.rows };

    ghost place = { λ s i. 6 + 4 * s.rows + 2 * i + 1 };

    ghost at = { λ s m i. slice_index (numbers_of s m).alive i };

    ghost puts = { λ s m i x m'. numbers_of s m' ≡ put_alive i x (numbers_of s m) };

    fn place(_numbers: &[usize], cx: Context, i: usize) -> usize {
        6 + 4 * cx.rows + 2 * i + 1
    }

    ghost within = { λ s m i h k. omega (arith, h, k) };

    ghost reads = { λ s m i h k. alive_at_lem s m i h };

    ghost writes = { λ s m i x h k. alive_put s m i x h k };
}

// Whether it was rewritten, 1 or 0.
pub struct Touched;

impl Field for Touched {
    type Word = usize;

    ghost holds = { HoldsN };

    ghost missing = { 0 };

    ghost size = { λ s. s.rows };

    ghost place = { λ s i. 6 + 7 * s.rows + i };

    ghost at = { λ s m i. slice_index (numbers_of s m).touched i };

    ghost puts = { λ s m i x m'. numbers_of s m' ≡ put_touched i x (numbers_of s m) };

    fn place(_numbers: &[usize], cx: Context, i: usize) -> usize {
        6 + 7 * cx.rows + i
    }

    ghost within = { λ s m i h k. omega (arith, h, k) };

    ghost reads = { λ s m i h k. touched_at s m i h };

    ghost writes = { λ s m i x h k. touched_put s m i x h };
}

// How many rewritten binaries its binding has; 0 is no binding.
pub struct Binaries;

impl Field for Binaries {
    type Word = usize;

    ghost holds = { HoldsN };

    ghost missing = { 0 };

    ghost size = { λ s. s.rows };

    ghost place = { λ s i. 6 + 8 * s.rows + i };

    ghost at = { λ s m i. slice_index (numbers_of s m).binaries i };

    ghost puts = { λ s m i x m'. numbers_of s m' ≡ put_binaries i x (numbers_of s m) };

    fn place(_numbers: &[usize], cx: Context, i: usize) -> usize {
        6 + 8 * cx.rows + i
    }

    ghost within = { λ s m i h k. omega (arith, h, k) };

    ghost reads = { λ s m i h k. binaries_at s m i h };

    ghost writes = { λ s m i x h k. binaries_put s m i x h };
}

// What becomes of row i.
pub struct Fate;

impl Field for Fate {
    type Word = usize;

    ghost holds = { HoldsN };

    ghost missing = { 0 };

    ghost size = { λ s. s.rows };

    ghost place = { λ s i. 6 + 9 * s.rows + i };

    ghost at = { λ s m i. slice_index (numbers_of s m).fate i };

    ghost puts = { λ s m i x m'. numbers_of s m' ≡ put_fate i x (numbers_of s m) };

    fn place(_numbers: &[usize], cx: Context, i: usize) -> usize {
        6 + 9 * cx.rows + i
    }

    ghost within = { λ s m i h k. omega (arith, h, k) };

    ghost reads = { λ s m i h k. fate_at s m i h };

    ghost writes = { λ s m i x h k. fate_put s m i x h };
}

// A place of variable i, and 1, or 0.
pub struct Slot;

impl Field for Slot {
    type Word = usize;

    ghost holds = { HoldsN };

    ghost missing = { 0 };

    ghost size = { λ s. s.vars };

    ghost place = { λ s i. 6 + 10 * s.rows + i };

    ghost at = { λ s m i. slice_index (numbers_of s m).slot i };

    ghost puts = { λ s m i x m'. numbers_of s m' ≡ put_slot i x (numbers_of s m) };

    fn place(_numbers: &[usize], cx: Context, i: usize) -> usize {
        6 + 10 * cx.rows + i
    }

    ghost within = { λ s m i h k. omega (arith, h, k) };

    ghost reads = { λ s m i h k. slot_at s m i h };

    ghost writes = { λ s m i x h k. slot_put s m i x h };
}

// Whether a row keeps variable i from falling, 1 or 0.
pub struct BadDec;

impl Field for BadDec {
    type Word = usize;

    ghost holds = { HoldsN };

    ghost missing = { 0 };

    ghost size = { λ s. s.vars };

    ghost place = { λ s i. 6 + 10 * s.rows + s.vars + i };

    ghost at = { λ s m i. slice_index (numbers_of s m).bad_dec i };

    ghost puts = { λ s m i x m'. numbers_of s m' ≡ put_bad_dec i x (numbers_of s m) };

    fn place(_numbers: &[usize], cx: Context, i: usize) -> usize {
        6 + 10 * cx.rows + cx.vars + i
    }

    ghost within = { λ s m i h k. omega (arith, h, k) };

    ghost reads = { λ s m i h k. bad_dec_at s m i h };

    ghost writes = { λ s m i x h k. bad_dec_put s m i x h };
}

// From rising.
pub struct BadInc;

impl Field for BadInc {
    type Word = usize;

    ghost holds = { HoldsN };

    ghost missing = { 0 };

    ghost size = { λ s. s.vars };

    ghost place = { λ s i. 6 + 10 * s.rows + 2 * s.vars + i };

    ghost at = { λ s m i. slice_index (numbers_of s m).bad_inc i };

    ghost puts = { λ s m i x m'. numbers_of s m' ≡ put_bad_inc i x (numbers_of s m) };

    fn place(_numbers: &[usize], cx: Context, i: usize) -> usize {
        6 + 10 * cx.rows + 2 * cx.vars + i
    }

    ghost within = { λ s m i h k. omega (arith, h, k) };

    ghost reads = { λ s m i h k. bad_inc_at s m i h };

    ghost writes = { λ s m i x h k. bad_inc_put s m i x h };
}

// Variable at place i of the terms.
pub struct Vars;

impl Field for Vars {
    type Word = usize;

    ghost holds = { HoldsN };

    ghost missing = { 0 };

    ghost size = { λ s. s.terms };

    ghost place = { λ s i. 6 + 10 * s.rows + 3 * s.vars + i };

    ghost at = { λ s m i. slice_index (numbers_of s m).vars i };

    ghost puts = { λ s m i x m'. numbers_of s m' ≡ put_vars i x (numbers_of s m) };

    fn place(_numbers: &[usize], cx: Context, i: usize) -> usize {
        6 + 10 * cx.rows + 3 * cx.vars + i
    }

    ghost within = { λ s m i h k. omega (arith, h, k) };

    ghost reads = { λ s m i h k. vars_at s m i h };

    ghost writes = { λ s m i x h k. vars_put s m i x h };
}

// Rewritten binaries of a row, at the front of its span.
pub struct Binary;

impl Field for Binary {
    type Word = usize;

    ghost holds = { HoldsN };

    ghost missing = { 0 };

    ghost size = { λ s. s.terms };

    ghost place = { λ s i. 6 + 10 * s.rows + 3 * s.vars + s.terms + i };

    ghost at = { λ s m i. slice_index (numbers_of s m).binary i };

    ghost puts = { λ s m i x m'. numbers_of s m' ≡ put_binary i x (numbers_of s m) };

    fn place(_numbers: &[usize], cx: Context, i: usize) -> usize {
        6 + 10 * cx.rows + 3 * cx.vars + cx.terms + i
    }

    ghost within = { λ s m i h k. omega (arith, h, k) };

    ghost reads = { λ s m i h k. binary_at_lem s m i h };

    ghost writes = { λ s m i x h k. binary_put s m i x h };
}
