// The helpers of `floats`, on NaN, infinities, zeros, subnormal numbers, halves, and 2^52, 2^53 and
// their neighbours.
use crate::bits::Bits;
use std::io;

// A function of one float.
fn one(rt: &impl Print, name: &str, x: f64, r: f64) -> io::Result<()> {
    println!(rt; "{name} {} {}", Bits(x), Bits(r))
}

fn of(rt: &impl Print, x: f64) -> io::Result<()> {
    one(rt, "absolute", x, floats::absolute(x))?;
    println!(rt; "is_finite {} {}", Bits(x), floats::is_finite(x))?;
    println!(rt; "is_infinite {} {}", Bits(x), floats::is_infinite(x))?;
    one(rt, "floor", x, floats::floor(x))?;
    one(rt, "ceil", x, floats::ceil(x))?;
    one(rt, "next_up", x, floats::next_up(x))?;
    one(rt, "next_down", x, floats::next_down(x))
}

pub(crate) fn all(rt: &impl Print) -> io::Result<()> {
    for x in [
        0.0,
        5e-324,
        2.225073858507201e-308,
        2.2250738585072014e-308,
        1e-14,
        0.49999999999999994,
        0.5,
        0.5000000000000001,
        0.9999999999999999,
        1.0,
        1.0000000000000002,
        1.5,
        2.5,
        3.141592653589793,
        2251799813685247.5,
        2251799813685248.5,
        4503599627370495.5,
        4503599627370496.0,
        4503599627370497.0,
        9007199254740991.0,
        9007199254740992.0,
        9007199254740994.0,
        6.696928794914171e299,
        1.7976931348623157e308,
        floats::infinity(),
    ] {
        of(rt, x)?;
        of(rt, -x)?;
    }
    of(rt, f64::NAN)?;
    let several = [
        f64::NAN,
        -floats::infinity(),
        -1.5,
        -0.0,
        0.0,
        5e-324,
        2.5,
        floats::infinity(),
    ];
    for x in several {
        for y in several {
            println!(rt;
                "smaller {} {} {}",
                Bits(x),
                Bits(y),
                Bits(floats::smaller(x, y))
            )?;
            println!(rt;
                "larger {} {} {}",
                Bits(x),
                Bits(y),
                Bits(floats::larger(x, y))
            )?;
        }
    }
    Ok(())
}
