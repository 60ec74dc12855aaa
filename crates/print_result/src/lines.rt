// The lines of the text but those of the rows.
ghost use Rattle.std.specs.Prelude.{◌++◌, length};
ghost use Rattle.print_result.specs.Text.{answer_line, counts_line, bound_line, bound_lines, validate_lines, refused_line, off_line, whole_line, number, newline};
ghost use Rattle.print_result.specs.Text.{verdict_line, excursion_line, check_text};

use crate::Kind;
use crate::put::{put_float, put_number, put_text};
use crate::sink::Sink;
use definition::Counts;
use plan::{Check, Verdict};

#[tactic(auto, unfolding(crate::specs::Text::ascii, crate::specs::Text::answer_line))]
pub(crate) fn put_kind<S: Sink>(out: &mut S, kind: Kind)
    ensures { S.wrote out.old (answer_line kind) out.new }
{
    match kind {
        Kind::Reduced => put_text(out, b"answer reduced\n"),
        Kind::Unchanged => put_text(out, b"answer unchanged\n"),
        Kind::Infeasible => put_text(out, b"answer infeasible\n"),
    }
}

pub(crate) fn put_counts<S: Sink>(out: &mut S, k: Counts)
    ensures { S.wrote out.old (counts_line k) out.new }
{
    put_text(out, b"counts");
    put_number(out, k.rowsDropped);
    put_number(out, k.boundsTightened);
    put_number(out, k.varsFixed);
    put_number(out, k.coeffsTightened);
    put_number(out, k.passes);
    out.put(b'\n');
}

fn put_bound<S: Sink>(out: &mut S, v: usize, lower: f64, upper: f64)
    ensures { S.wrote out.old (bound_line v lower upper) out.new }
{
    put_text(out, b"bound");
    put_number(out, v);
    put_float(out, lower);
    put_float(out, upper);
    out.put(b'\n');
}

// Every bound. Two lists, as C lends them.
pub(crate) fn put_bounds<S: Sink>(out: &mut S, lower: &[f64], upper: &[f64])
    ensures { S.wrote out.old (bound_lines (length lower.now) lower.now upper.now) out.new }
{
    for (v, (lower, upper)) in lower.iter().zip(upper).enumerate() {
        put_bound(out, v, *lower, *upper);
    }
}

// A line of a word and a number.
fn put_named<S: Sink>(out: &mut S, word: &[u8], n: usize)
    ensures { S.wrote out.old (word.now ++ (number n ++ newline)) out.new }
{
    put_text(out, word);
    put_number(out, n);
    out.put(b'\n');
}

pub(crate) fn put_kept<S: Sink>(out: &mut S, kept: &[usize])
    ensures { S.wrote out.old (validate_lines (length kept.now) kept.now) out.new }
{
    for r in kept {
        put_named(out, b"validate", *r);
    }
}

pub(crate) fn put_refused<S: Sink>(out: &mut S, n: usize)
    ensures { S.wrote out.old (refused_line n) out.new }
{
    put_named(out, b"refused", n);
}

#[tactic(auto, unfolding(crate::specs::Text::ascii, crate::specs::Text::whole_line))]
pub(crate) fn put_whole<S: Sink>(out: &mut S)
    ensures { S.wrote out.old whole_line out.new }
{
    put_text(out, b"numbers whole\n");
}

pub(crate) fn put_off<S: Sink>(out: &mut S, number: usize, place: usize)
    ensures { S.wrote out.old (off_line number place) out.new }
{
    put_text(out, b"numbers");
    put_number(out, number);
    put_number(out, place);
    out.put(b'\n');
}

#[tactic(auto, unfolding(crate::specs::Text::ascii, crate::specs::Text::verdict_line))]
fn put_verdict<S: Sink>(out: &mut S, verdict: Verdict)
    ensures { S.wrote out.old (verdict_line verdict) out.new }
{
    match verdict {
        Verdict::AllHold => put_text(out, b"plan holds\n"),
        Verdict::Lower(v) => put_named(out, b"plan lower", v),
        Verdict::Upper(v) => put_named(out, b"plan upper", v),
        Verdict::NotWhole(v) => put_named(out, b"plan whole", v),
        Verdict::Row(r) => put_named(out, b"plan row", r),
    }
}

fn put_excursion<S: Sink>(out: &mut S, excursion: f64)
    ensures { S.wrote out.old (excursion_line excursion) out.new }
{
    put_text(out, b"excursion");
    put_float(out, excursion);
    out.put(b'\n');
}

pub(crate) fn put_check<S: Sink>(out: &mut S, check: Check)
    ensures { S.wrote out.old (check_text check) out.new }
{
    put_verdict(out, check.verdict);
    put_excursion(out, check.excursion);
}
