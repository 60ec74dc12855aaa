// The table of refusals for a call: the earliest row of the table that applies. Added by the port; the
// contract is one equation with the definition's `refusal`.
#![tactic(auto)]

mod lists;
mod rows;

ghost use Rattle.std.specs.Prelude.{◌≡◌};
ghost use Rattle.definition.specs.Refusal.{refusal};
ghost use Rattle.refuse.specs.Number.{number_of};
ghost use Rattle.definition.specs.Of.{input_model};
ghost use Rattle.refuse.specs.Of.{lent_of, refused_is};

use definition::Input;

// The most variables, rows and terms that a call may have.
pub const MAX_VARS: usize = 4096;

pub const MAX_ROWS: usize = 8192;

pub const MAX_TERMS: usize = 65536;

// The most terms that one row may have.
pub const MAX_ROW_TERMS: usize = 256;

// The lengths of the lent slices, of which C lends thirteen.
#[derive(Clone, Copy)]
pub struct Lent {
    pub lower: usize,
    pub upper: usize,
    pub emit_row: usize,
    pub emit_rewritten: usize,
    pub emit_rhs: usize,
    pub emit_from: usize,
    pub emit_upto: usize,
    pub kept: usize,
    pub term_index: usize,
    pub term_coeff: usize,
    pub floats: usize,
    pub numbers: usize,
    pub adjacency: usize,
}

// The rows of the table, in its order. Their numbers are the table's, which C is handed.
#[derive(Clone, Copy, PartialEq, Eq, Debug)]
pub enum Refusal {
    LengthsDisagree = 1,
    TooLarge = 2,
    StartsWrong = 3,
    IndicesWrong = 4,
    RowsLong = 18,
    CodesWrong = 5,
    BoundsWrong = 6,
    NumbersWrong = 7,
    RhsesWrong = 8,
    TolerancesWrong = 9,
    TooShort = 10,
}

impl From<Refusal> for u8 {
    ghost from_gives = { λ refusal number. number ≡ number_of refusal };

    fn from(refusal: Refusal) -> u8 {
        refusal as u8
    }
}

// = refusal: the rows in their order, each looked at only where none before it applies. Blocks that are
// alike, as the table's rows are: a row relies on those before it, which `?` over a helper would hide.
// Compiled into its caller, since what a call hands in goes by value.
#[inline(always)]
pub fn refused(input: Input, lent: Lent) -> Result<(), Refusal>
    ensures { refused_is result ≡ refusal (input_model input.entry) (lent_of lent) }
{
    if rows::lengths_disagree(input) {
        return Err(Refusal::LengthsDisagree);
    }
    if rows::too_large(input) {
        return Err(Refusal::TooLarge);
    }
    if rows::starts_wrong(input) {
        return Err(Refusal::StartsWrong);
    }
    if rows::indices_wrong(input) {
        return Err(Refusal::IndicesWrong);
    }
    if rows::rows_long(input) {
        return Err(Refusal::RowsLong);
    }
    if rows::codes_wrong(input) {
        return Err(Refusal::CodesWrong);
    }
    if rows::bounds_wrong(input) {
        return Err(Refusal::BoundsWrong);
    }
    if rows::numbers_wrong(input) {
        return Err(Refusal::NumbersWrong);
    }
    if rows::rhses_wrong(input) {
        return Err(Refusal::RhsesWrong);
    }
    if rows::tolerances_wrong(input) {
        return Err(Refusal::TolerancesWrong);
    }
    if rows::too_short(input, lent) {
        return Err(Refusal::TooShort);
    }
    Ok(())
}
