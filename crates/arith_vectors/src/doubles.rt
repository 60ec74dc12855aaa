// CDouble: sums, halves and products that are exact, and those past the conditions of the theorems.
use crate::bits::Bits;
use cdouble::CDouble;
use std::io;

// A function of two floats with two results.
fn parts(rt: &impl Print, name: &str, x: f64, y: f64, d: CDouble) -> io::Result<()> {
    println!(rt;
        "{name} {} {} {} {}",
        Bits(x),
        Bits(y),
        Bits(d.hi),
        Bits(d.lo)
    )
}

// A function of two floats with one.
fn two(rt: &impl Print, name: &str, x: f64, y: f64, r: f64) -> io::Result<()> {
    println!(rt; "{name} {} {} {}", Bits(x), Bits(y), Bits(r))
}

fn sum(rt: &impl Print, a: f64, b: f64) -> io::Result<()> {
    let s = CDouble::two_sum(a, b);
    parts(rt, "two_sum", a, b, s)?;
    two(rt, "rounded_up", a, b, s.rounded(true))?;
    two(rt, "rounded_down", a, b, s.rounded(false))?;
    two(rt, "value", a, b, s.value())
}

fn product(rt: &impl Print, a: f64, b: f64) -> io::Result<()> {
    parts(rt, "split", a, 0.0, CDouble::split(a))?;
    parts(rt, "split", b, 0.0, CDouble::split(b))?;
    parts(rt, "two_product", a, b, CDouble::two_product(a, b))
}

// c, then + v, then + a * b, and the whole negated.
fn chain(rt: &impl Print, c: CDouble, v: f64, a: f64, b: f64) -> io::Result<()> {
    let d = c + v;
    let e = d.add_product(a, b);
    parts(rt, "from", v, 0.0, CDouble::from(v))?;
    parts(rt, "add", c.hi, c.lo, d)?;
    parts(rt, "add_product", a, b, e)?;
    parts(rt, "neg", e.hi, e.lo, -e)?;
    two(rt, "chain_up", e.hi, e.lo, e.rounded(true))?;
    two(rt, "chain_down", e.hi, e.lo, e.rounded(false))
}

pub(crate) fn all(rt: &impl Print) -> io::Result<()> {
    for (a, b) in [
        (1.0, 1.1102230246251565e-16),
        (1.1102230246251565e-16, 1.0),
        (1.0, -5e-324),
        (9007199254740992.0, 1.0),
        (0.1, 0.2),
        (-0.3, 0.2),
        (0.0, -0.0),
        (-0.0, -0.0),
        (5e-324, 5e-324),
        (1e308, 1.0),
        (1.7976931348623157e308, -2.9937604643020797e292),
        (-2.9937604643020797e292, 1.7976931348623157e308),
        (1.7976931348623157e308, 1.7976931348623157e308),
        (f64::INFINITY, 1.0),
        (f64::NAN, 1.0),
    ] {
        sum(rt, a, b)?;
    }
    for (a, b) in [
        (0.1, 0.3),
        (134217729.0, 134217729.0),
        (1.0000000000000002, 1.0000000000000002),
        (-1.0000000000000002, 0.9999999999999999),
        (6.696928794914171e299, 134217727.5),
        (0.0, -6.696928794914171e299),
        (-0.0, 5e-324),
        (2.2250738585072014e-308, 9007199254740991.0),
        (4.0084e-146, 4.0084e-146),
        (4.0084e-150, 4.0084e-150),
        (5e-324, 0.5),
        (1.7976931348623157e308, 1.0),
        (1e200, 1e200),
        (f64::INFINITY, 2.0),
    ] {
        product(rt, a, b)?;
    }
    for (hi, lo, v, a, b) in [
        (1.0, 1e-17, 0.1, 0.1, 0.1),
        (1e16, -1.0, 1.0, 3.0, -0.3333333333333333),
        (0.0, 0.0, -0.0, -1.0, 0.0),
        (1e300, 1e280, -1e300, 1e150, 1e130),
    ] {
        chain(rt, CDouble { hi, lo }, v, a, b)?;
    }
    Ok(())
}
