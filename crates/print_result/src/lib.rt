// The printer: an answer of presolve as text, in a lent buffer. specs/Text says what the text is,
// specs/Printing what the buffer holds. No `Display`: std's `fmt` promises nothing of when it fails,
// and here a text is refused exactly where it does not fit.
#![tactic(auto)]

mod lines;
mod put;
mod rows;
mod sink;

ghost use Rattle.std.specs.Prelude.{◌≡◌, ℕ, List, length};
ghost use Rattle.print_result.specs.Text.{answer_text, followed, refused_line, numbers_text, check_text};
ghost use Rattle.print_result.specs.Printing.{printed, outcome};

use crate::sink::{Buffer, Count, Sink};
use definition::Counts;
use plan::Check;

// What was answered. A kind beside the lists, and no enum that has them: print_answer promises its text
// for every kind and all lists.
#[derive(Clone, Copy)]
pub enum Kind {
    Reduced,
    Unchanged,
    Infeasible,
}

impl Kind {
    // Whether more than the counts follows.
    #[tactic(auto, unfolding(crate::specs::Text::followed))]
    fn is_followed(self) -> bool
        ensures { result ≡ followed self }
    {
        matches!(self, Kind::Reduced | Kind::Unchanged)
    }
}

// Terms, list beside list, as C lends them.
#[derive(Clone, Copy)]
pub struct Terms<'a> {
    pub index: &'a [usize],
    pub coeff: &'a [f64],
}

// The emitted rows, list beside list as C lends them, as far as every list has them. A row whose mark is 0 is
// written, any other rewritten: then the terms of its span follow.
#[derive(Clone, Copy)]
pub struct Emitted<'a> {
    pub row: &'a [usize],
    pub rewritten: &'a [u8],
    pub rhs: &'a [f64],
    pub from: &'a [usize],
    pub upto: &'a [usize],
}

// What is printed of an answer: every bound, row and validated row that the lists have. model are
// the model's terms, terms those of the rewritten rows.
#[derive(Clone, Copy)]
pub struct Answer<'a> {
    pub kind: Kind,
    pub counts: Counts,
    pub lower: &'a [f64],
    pub upper: &'a [f64],
    pub rows: Emitted<'a>,
    pub model: Terms<'a>,
    pub terms: Terms<'a>,
    pub kept: &'a [usize],
}

// The condition of a farm model that fails, by its number, and its place. A number: the printer knows no more
// of a condition than what it prints.
#[derive(Clone, Copy)]
pub struct Off {
    pub number: usize,
    pub place: usize,
}

// What can be printed.
trait Text {
    ghost bytes: { Self → List ℕ };

    fn write<S: Sink>(&self, out: &mut S)
    where
        Self: Sized,
        ensures { S.wrote out.old (bytes self.now) out.new };
}

impl Text for Answer<'_> {
    ghost bytes = { λ a. answer_text a.kind a.counts (length a.lower.now) a.lower.now a.upper.now
        (length a.rows.row.now) a.rows.row.now a.rows.rewritten.now a.rows.rhs.now a.rows.from.now a.rows.upto.now
        a.terms.index.now a.terms.coeff.now (length a.kept.now) a.kept.now };

    fn write<S: Sink>(&self, out: &mut S) {
        lines::put_kind(out, self.kind);
        lines::put_counts(out, self.counts);
        if self.kind.is_followed() {
            lines::put_bounds(out, self.lower, self.upper);
            rows::put_rows(out, self.rows, self.model, self.terms);
            lines::put_kept(out, self.kept);
        }
    }
}

// The number of a refusal, of which the printer knows no more either: the reader's and the table's are two
// types.
#[derive(Clone, Copy)]
struct Refused(u8);

impl Text for Refused {
    ghost bytes = { λ n. refused_line n.0 };

    fn write<S: Sink>(&self, out: &mut S) {
        lines::put_refused(out, usize::from(self.0));
    }
}

impl Text for Option<Off> {
    ghost bytes = { numbers_text };

    fn write<S: Sink>(&self, out: &mut S) {
        match self {
            None => lines::put_whole(out),
            Some(off) => lines::put_off(out, off.number, off.place),
        }
    }
}

impl Text for Check {
    ghost bytes = { check_text };

    fn write<S: Sink>(&self, out: &mut S) {
        lines::put_check(out, *self);
    }
}

// Counts the text first, and writes it if it fits: how many bytes, or none where there is no room.
fn print<T: Text>(text: &T, out: &mut [u8]) -> Option<usize>
    ensures { outcome result out.new ≡ printed (T.bytes text.now) out.old }
{
    let mut count = Count(0);
    text.write(&mut count);
    if out.len() < count.0 {
        return None;
    }
    let mut buffer = Buffer {
        bytes: out,
        place: 0,
    };
    text.write(&mut buffer);
    Some(buffer.place)
}

// Prints an answer.
pub fn print_answer(answer: Answer<'_>, out: &mut [u8]) -> Option<usize>
    ensures { outcome result out.new ≡ printed (answer_text answer.entry.kind answer.entry.counts
        (length answer.entry.lower.now) answer.entry.lower.now answer.entry.upper.now (length answer.entry.rows.row.now)
        answer.entry.rows.row.now answer.entry.rows.rewritten.now answer.entry.rows.rhs.now answer.entry.rows.from.now
        answer.entry.rows.upto.now answer.entry.terms.index.now answer.entry.terms.coeff.now
        (length answer.entry.kept.now) answer.entry.kept.now) out.old }
{
    print(&answer, out)
}

// Prints a refusal.
pub fn print_refusal(number: u8, out: &mut [u8]) -> Option<usize>
    ensures { outcome result out.new ≡ printed (refused_line number) out.old }
{
    print(&Refused(number), out)
}

// Prints whether a model is 01's farm model with a whole objective: the condition that fails, or none.
pub fn print_numbers(off: Option<Off>, out: &mut [u8]) -> Option<usize>
    ensures { outcome result out.new ≡ printed (numbers_text off) out.old }
{
    print(&off, out)
}

// Prints what is said of a plan.
pub fn print_check(check: Check, out: &mut [u8]) -> Option<usize>
    ensures { outcome result out.new ≡ printed (check_text check) out.old }
{
    print(&check, out)
}
