// Tolerances, and rows at a point.
use crate::bits::Bits;
use std::{fmt, io};
use tolerances::{Row, RowSum};

// Bytes, as `tolerances` takes them: some lines ask with a byte that is none of the three.
const EQUAL: u8 = 0;

const AT_MOST: u8 = 1;

const AT_LEAST: u8 = 2;

const INFINITY: f64 = f64::INFINITY;

// By how much a row is missed, if it is.
#[derive(Clone, Copy)]
struct Missed(Option<f64>);

impl fmt::Display for Missed {
    fn fmt<W: fmt::Write>(&self, f: &mut fmt::Formatter<W>) -> fmt::Result {
        match self.0 {
            Some(far) => write!(f, "{}", Bits(far)),
            None => f.write_str("met"),
        }
    }
}

fn tolerance(rt: &impl Print, tol: f64, m: f64) -> io::Result<()> {
    let row = tolerances::row_tolerance(tol, m);
    let bound = tolerances::bound_tolerance(tol, m);
    println!(rt; "row_tolerance {} {} {}", Bits(tol), Bits(m), Bits(row))?;
    println!(rt; "bound_tolerance {} {} {}", Bits(tol), Bits(m), Bits(bound))
}

fn margin(rt: &impl Print, tol: f64, m: f64, terms: usize) -> io::Result<()> {
    let margin = tolerances::slack_margin(tol, m, terms);
    let left = tolerances::slack_tol(tol, m, terms);
    println!(rt;
        "slack_margin {terms} {} {} {} {}",
        Bits(tol),
        Bits(m),
        Bits(margin),
        Bits(left)
    )
}

fn place(rt: &impl Print, x: f64, lo: f64, hi: f64, tol: f64) -> io::Result<()> {
    let out = tolerances::outside(x, lo, hi, tol);
    let far = tolerances::excursion(x, lo, hi);
    println!(rt;
        "outside {} {} {} {} {out} {}",
        Bits(x),
        Bits(lo),
        Bits(hi),
        Bits(tol),
        Bits(far)
    )
}

fn side(rt: &impl Print, op: u8) -> io::Result<()> {
    let slack = tolerances::slack_bounds(op);
    println!(rt; "slack_bounds {op} {} {}", Bits(slack.min), Bits(slack.max))
}

fn verdict(rt: &impl Print, terms: usize, op: u8, rhs: f64, tol: f64) -> io::Result<()> {
    let valid = tolerances::valid_rhs(op, rhs);
    let word = match tolerances::trivial_row_verdict(terms, op, rhs, tol) {
        Some(true) => "holds",
        Some(false) => "fails",
        None => "open",
    };
    println!(rt; "verdict {terms} {op} {} {valid} {word}", Bits(rhs))
}

// A row of two terms at a point, a * x and b * y, term by term.
fn row(
    rt: &impl Print,
    op: u8,
    rhs: f64,
    (a, x): (f64, f64),
    (b, y): (f64, f64),
    tol: f64,
) -> io::Result<()> {
    let implied = RowSum::start(rhs).with(a, x).with(b, y).slack();
    let violates = implied.violates(op, tol);
    let missed = Missed(implied.violation(op, tol));
    print!(rt;
        "row {op} {} {} {} {} {}",
        Bits(rhs),
        Bits(a),
        Bits(x),
        Bits(b),
        Bits(y)
    )?;
    println!(rt;
        " {} {} {violates} {missed}",
        Bits(implied.slack),
        Bits(implied.magnitude)
    )
}

// A row as slices: implied_slack and violation.
fn listed(rt: &impl Print, op: u8, rhs: f64) -> io::Result<()> {
    let row = Row {
        index: &[2, 0, 1],
        coeff: &[1.0, -2.0, 0.1],
        op,
        rhs,
    };
    let values = [3.0, 0.3, 0.1];
    let implied = row.implied_slack(&values);
    let missed = Missed(row.violation(&values, 1e-9));
    print!(rt; "implied_slack {op} {}", Bits(rhs))?;
    println!(rt;
        " {} {} {missed}",
        Bits(implied.slack),
        Bits(implied.magnitude)
    )
}

fn all_tolerances(rt: &impl Print) -> io::Result<()> {
    for (tol, m) in [
        (1e-9, 0.0),
        (1e-9, 100000.0),
        (1e-9, -1000000.0),
        (0.0, 5e-324),
        (0.5, 1.7976931348623157e308),
        (1e-6, INFINITY),
        (1e-6, f64::NAN),
    ] {
        tolerance(rt, tol, m)?;
    }
    for (tol, m, terms) in [
        (1e-6, 1.0, 0),
        (1e-6, 1000000.0, 2),
        (1e-9, 1000000.0, 41),
        (1e-9, 1000000.0, 43),
        (1e-9, 35184372088832.0, 256),
        (0.01, 1e300, 65536),
        (1e-6, INFINITY, 3),
        (1e-6, f64::NAN, 3),
    ] {
        margin(rt, tol, m, terms)?;
    }
    Ok(())
}

fn all_places(rt: &impl Print) -> io::Result<()> {
    for (x, lo, hi, tol) in [
        (1.0, 0.0, 1.0, 0.0),
        (1.0000000000000002, 0.0, 1.0, 0.0),
        (1.000001, 0.0, 1.0, 1e-6),
        (0.30000000000000004, 0.0, 0.2, 0.1),
        (-1e-6, 0.0, 1.0, 1e-6),
        (-1.1e-6, 0.0, 1.0, 1e-6),
        (-0.0, 0.0, 0.0, 0.0),
        (1.7976931348623157e308, -INFINITY, INFINITY, 0.0),
        (INFINITY, -INFINITY, INFINITY, 0.5),
        (f64::NAN, -INFINITY, INFINITY, 0.5),
    ] {
        place(rt, x, lo, hi, tol)?;
    }
    for op in 0..4 {
        side(rt, op)?;
    }
    Ok(())
}

fn all_verdicts(rt: &impl Print) -> io::Result<()> {
    for op in [EQUAL, AT_MOST, AT_LEAST] {
        for (terms, rhs) in [
            (0, 0.0),
            (0, 1e-6),
            (0, 1.1e-6),
            (0, -1.1e-6),
            (2, -0.0),
            (2, INFINITY),
            (2, -INFINITY),
            (2, f64::NAN),
        ] {
            verdict(rt, terms, op, rhs, 1e-6)?;
        }
    }
    Ok(())
}

fn all_rows(rt: &impl Print) -> io::Result<()> {
    for (op, rhs, first, second, tol) in [
        (AT_MOST, 4.0, (1.0, 3.0), (1.0, 1.0), 1e-6),
        (AT_MOST, 4.0, (1.0, 3.0), (1.0, 1.000001), 1e-6),
        (AT_MOST, 4.0, (1.0, 3.0), (1.0, 1.0000011), 1e-6),
        (EQUAL, 0.3, (0.1, 3.0), (0.0, 7.0), 0.0),
        (AT_LEAST, 0.3, (0.1, 3.0), (0.0, 7.0), 1e-9),
        (AT_LEAST, -2.0, (-1.0, 0.0), (-32768.0, 1048576.0), 0.01),
        (EQUAL, 1.0, (1e200, 1e100), (-1e150, 1e150), 1e-6),
        (AT_MOST, 1e300, (1e300, 1.0), (2.0, 1e300), 1e-6),
        (AT_MOST, 1.0, (1e308, 1e308), (1.0, 1.0), 1e-6),
        (EQUAL, -0.0, (-0.0, 5e-324), (0.0, 0.0), 0.0),
    ] {
        row(rt, op, rhs, first, second, tol)?;
    }
    for (op, rhs) in [
        (EQUAL, -5.87),
        (AT_MOST, -5.87),
        (AT_MOST, -5.9),
        (AT_LEAST, -5.87),
        (AT_LEAST, -5.0),
    ] {
        listed(rt, op, rhs)?;
    }
    Ok(())
}

pub(crate) fn all(rt: &impl Print) -> io::Result<()> {
    all_tolerances(rt)?;
    all_places(rt)?;
    all_verdicts(rt)?;
    all_rows(rt)
}
