// The bytes of a file that are still to be read, and the numbers at their front. After a refusal nothing
// more is read.
ghost use Rattle.std.specs.Prelude.{◌≡◌, ◌<◌, IfOk};
ghost use Rattle.model_file.specs.Format.{many, byte, number, float, optional, count, code, refuse, end};
ghost use Rattle.model_file.specs.Places.{answered};

use crate::FileRefusal;
use std::num;

#[derive(Drop)]
pub(crate) struct Reader<'a> {
    pub(crate) rest: &'a [u8],
}

impl<'a> Reader<'a> {
    // The next N bytes.
    fn chunk<const N: usize>(&mut self) -> Result<[u8; N], FileRefusal>
        ensures { many byte N self.old.rest.now ≡ answered result self.new.rest.now }
    {
        let Some((first, rest)) = self.rest.split_first_chunk::<N>() else {
            return Err(FileRefusal::Missing);
        };
        self.rest = rest;
        Ok(*first)
    }

    pub(crate) fn byte(&mut self) -> Result<u8, FileRefusal>
        ensures { byte self.old.rest.now ≡ answered result self.new.rest.now }
    {
        let [byte] = self.chunk::<1>()?;
        Ok(byte)
    }

    // A number of two bytes.
    pub(crate) fn short(&mut self) -> Result<usize, FileRefusal>
        ensures read { number 2 self.old.rest.now ≡ answered result self.new.rest.now }
        ensures small { IfOk result (λ n. n < 65536) }
    {
        Ok(usize::from(u16::from_le_bytes(self.chunk()?)))
    }

    // A float by its pattern. Each NaN's pattern is the one NaN.
    pub(crate) fn float(&mut self) -> Result<f64, FileRefusal>
        ensures { float self.old.rest.now ≡ answered result self.new.rest.now }
    {
        Ok(num::f64_from_bits_with_nan(u64::from_le_bytes(self.chunk()?)))
    }

    // A float that its map announces, or else absent.
    pub(crate) fn optional(&mut self, present: bool, absent: f64) -> Result<f64, FileRefusal>
        ensures { optional present absent self.old.rest.now ≡ answered result self.new.rest.now }
    {
        if present { self.float() } else { Ok(absent) }
    }

    // A count of variables or rows. It and `code` are alike by chance: they read, bound and refuse differently.
    pub(crate) fn count(&mut self) -> Result<usize, FileRefusal>
        ensures { count self.old.rest.now ≡ answered result self.new.rest.now }
    {
        let n = self.short()?;
        if 128 < n {
            return Err(FileRefusal::TooMany);
        }
        Ok(n)
    }

    // The mode.
    pub(crate) fn code(&mut self) -> Result<u8, FileRefusal>
        ensures { code self.old.rest.now ≡ answered result self.new.rest.now }
    {
        let mode = self.byte()?;
        if 2 < mode {
            return Err(FileRefusal::Reserved);
        }
        Ok(mode)
    }

    pub(crate) fn end(&self) -> Result<(), FileRefusal>
        ensures { end self.now.rest.now ≡ answered result self.now.rest.now }
    {
        if self.rest.is_empty() {
            Ok(())
        } else {
            Err(FileRefusal::Trailing)
        }
    }
}
