// A float as the 16 digits of its pattern.
use std::fmt;

// The language has one NaN, which is written as the usual quiet one.
#[derive(Clone, Copy)]
pub(crate) struct Bits(pub(crate) f64);

impl fmt::Display for Bits {
    fn fmt<W: fmt::Write>(&self, f: &mut fmt::Formatter<W>) -> fmt::Result {
        let x = self.0;
        let pattern = if x.is_nan() {
            0x7ff8000000000000
        } else {
            f64::to_bits(x)
        };
        write!(f, "{pattern:016x}")
    }
}
