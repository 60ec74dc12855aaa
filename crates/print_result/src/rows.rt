// The lines of the rows that are emitted.
ghost use Rattle.std.specs.Prelude.{length};
ghost use Rattle.print_result.specs.Text.{written_line, rewritten_line, term_line, term_lines, row_text, row_texts};

use crate::put::{put_float, put_number, put_text};
use crate::sink::Sink;
use crate::{Emitted, Terms};
use row_terms::Span;

fn put_written<S: Sink>(out: &mut S, r: usize)
    ensures { S.wrote out.old (written_line r) out.new }
{
    put_text(out, b"emit");
    put_number(out, r);
    put_text(out, b" written\n");
}

fn put_rewritten<S: Sink>(out: &mut S, r: usize, rhs: f64)
    ensures { S.wrote out.old (rewritten_line r rhs) out.new }
{
    put_text(out, b"emit");
    put_number(out, r);
    put_text(out, b" rewritten");
    put_float(out, rhs);
    out.put(b'\n');
}

fn put_term<S: Sink>(out: &mut S, v: usize, coeff: f64)
    ensures { S.wrote out.old (term_line v coeff) out.new }
{
    put_text(out, b"term");
    put_number(out, v);
    put_float(out, coeff);
    out.put(b'\n');
}

// All terms of a row, as far as both parts have them.
fn put_terms<S: Sink>(out: &mut S, vars: &[usize], coeffs: &[f64])
    ensures { S.wrote out.old (term_lines 0 (length vars.now) vars.now coeffs.now) out.new }
{
    for (v, coeff) in vars.iter().zip(coeffs) {
        put_term(out, *v, *coeff);
    }
}

// A row by its mark: 0 is written, any other number rewritten. Only a rewritten row's terms are read.
fn put_row<S: Sink>(out: &mut S, r: usize, rhs: f64, span: Span, model: Terms<'_>, terms: Terms<'_>)
    ensures { S.wrote out.old (row_text r span.mark rhs span.from span.upto terms.entry.index.now terms.entry.coeff.now) out.new }
{
    if span.mark != 0 {
        put_rewritten(out, r, rhs);
        let vars = span.part(model.index, terms.index);
        let coeffs = span.part(model.coeff, terms.coeff);
        put_terms(out, vars, coeffs);
    } else {
        put_written(out, r);
    }
}

// Every row. Five lists side by side have no `zip` that is plainer.
pub(crate) fn put_rows<S: Sink>(out: &mut S, rows: Emitted<'_>, model: Terms<'_>, terms: Terms<'_>)
    ensures { S.wrote out.old (row_texts (length rows.entry.row.now) rows.entry.row.now rows.entry.rewritten.now
        rows.entry.rhs.now rows.entry.from.now rows.entry.upto.now terms.entry.index.now terms.entry.coeff.now) out.new }
{
    let spans = rows.from.len().min(rows.upto.len());
    let facts = rows.row.len().min(rows.rewritten.len().min(rows.rhs.len()));
    for i in 0..facts.min(spans) {
        let span = Span {
            mark: rows.rewritten[i],
            from: rows.from[i],
            upto: rows.upto[i],
        };
        put_row(out, rows.row[i], rows.rhs[i], span, model, terms);
    }
}
