// The parts of a line.
ghost use Rattle.std.specs.Prelude.{◌≡◌, ◌<◌};
ghost use Rattle.print_result.specs.Text.{decimal, hex_digits, digit, number, bits};

use crate::sink::Sink;
use std::num::f64_to_bits_with_nan;

pub(crate) fn put_text<S: Sink>(out: &mut S, text: &[u8])
    ensures { S.wrote out.old text.now out.new }
{
    for byte in text {
        out.put(*byte);
    }
}

// The character of a digit.
#[tactic(auto, unfolding(crate::specs::Text::ascii, crate::specs::Text::digit))]
fn digit_of(d: usize) -> u8
    requires { d < 16 }
    ensures { result ≡ digit d }
{
    let digits = b"0123456789abcdef";
    digits[d]
}

// A number in decimal.
fn put_decimal<S: Sink>(out: &mut S, n: usize)
    ensures { S.wrote out.old (decimal n) out.new }
{
    if n >= 10 {
        put_decimal(out, n / 10);
    }
    out.put(digit_of(n % 10));
}

// The last k hexadecimal digits of n.
fn put_hex<S: Sink>(out: &mut S, k: usize, n: u64)
    ensures { S.wrote out.old (hex_digits k n) out.new }
{
    if k > 0 {
        put_hex(out, k - 1, n / 16);
        out.put(digit_of((n % 16) as usize));
    }
}

// A space and a number.
pub(crate) fn put_number<S: Sink>(out: &mut S, n: usize)
    ensures { S.wrote out.old (number n) out.new }
{
    out.put(b' ');
    put_decimal(out, n);
}

// A space and a float's pattern. That of a NaN is a free choice.
pub(crate) fn put_float<S: Sink>(out: &mut S, x: f64)
    ensures { S.wrote out.old (bits x) out.new }
{
    out.put(b' ');
    put_hex(out, 16, f64_to_bits_with_nan(x));
}
