// One trait for the fields of the working space: where a field stands in its slice, and what is read
// and written there.
ghost use Rattle.std.specs.Prelude.{◌+◌, ◌%◌, ◌^◌, ◌≡◌, ◌<◌, ℕ, List, length, slice_index_or, slice_set};
ghost use Rattle.space.specs.declared.Context.{Context};

use crate::Context;

pub trait Field {
    type Word: Copy;

    // What is asked of the slice: it is as long as the context says.
    ghost holds: { Context → List Self.Word → Type 0 };

    // What a read past the slice's end gives in the definition's lists.
    ghost missing: { Self.Word };

    // How many elements the field has.
    ghost size: { Context → ℕ };

    ghost place: { Context → ℕ → ℕ };

    // Element i, as the definition's record of lists has it.
    ghost at: { Context → List Self.Word → ℕ → Self.Word };

    // The slice before, the place, the number, and the slice after.
    ghost puts: { Context → List Self.Word → ℕ → Self.Word → List Self.Word → Type 0 };

    fn place(l: &[Self::Word], cx: Context, i: usize) -> usize
        requires { (i < size cx) × holds cx l.now }
        ensures { result ≡ place cx i };

    ghost within: { (s : Context) (l : List Self.Word) (i : ℕ) → i < size s → holds s l → place s i < length l };

    ghost reads: { (s : Context) (l : List Self.Word) (i : ℕ) → i < size s → holds s l → slice_index_or l (place s i) missing ≡ at s l i };

    ghost writes: { (s : Context) (l : List Self.Word) (i : ℕ) (x : Self.Word) → i < size s → holds s l → puts s l i x (slice_set l (place s i) x) };
}

pub fn get<F: Field>(l: &[F::Word], cx: Context, i: usize) -> F::Word
    requires { (i < F.size cx) × F.holds cx l.now }
    ensures { result ≡ F.at cx l.now i }
{
    l[F::place(l, cx, i)]
}

pub fn put<F: Field>(l: &mut [F::Word], cx: Context, i: usize, x: F::Word)
    requires { (i < F.size cx) × F.holds cx l.old }
    ensures { F.puts cx l.old i x l.new }
{
    let p = F::place(l, cx, i);
    l[p] = x;
}

// One more of a count, kept modulo 2^64, which it never reaches.
pub fn count<F: Field<Word = usize>>(numbers: &mut [usize], cx: Context)
    requires { (0 < F.size cx) × F.holds cx numbers.old }
    ensures { F.puts cx numbers.old 0 ((F.at cx numbers.old 0 + 1) % 2 ^ 64) numbers.new }
{
    let x = get::<F>(numbers, cx, 0);
    put::<F>(numbers, cx, 0, x.wrapping_add(1));
}
