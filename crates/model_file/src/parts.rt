// The parts of the file, each by value.
ghost use Rattle.std.specs.Prelude.{◌≡◌, ◌≤◌, ◌<◌, ◌+◌, ◌/◌, ◌%◌, ℕ, IfOk, eqb};
ghost use Rattle.model_file.specs.Format.{Parser, absent_upper, values, variable, side, head, term, rules, settings};
ghost use Rattle.model_file.specs.Places.{answered};
ghost use Rattle.model_file.specs.Reading.{Slices, SameSlices, lent};
ghost use Rattle.model_file.specs.Fills.{Sizes, sizes, VarPlace, TermPlace, put_var, put_term, sizes_var, sizes_term};

use crate::reader::Reader;
use crate::{FileRefusal, ModelSlices, RowHead, Settings, Term, Variable};

// The bit of a map that has this weight. A map is a byte of the file, here and below: bits and a code, and no number for a kind.
fn bit(map: u8, weight: u8) -> bool
    requires { 0 < weight }
    ensures { result ≡ eqb (map / weight % 2) 1 }
{
    map / weight % 2 == 1
}

// What an upper bound is that the file leaves out: 1 of a Boolean, as exporters mean it, and open of the others.
#[tactic(auto, unfolding(floats::specs::Num::choose, crate::specs::Format::absent_upper))]
fn absent_upper(domain: u8) -> f64
    ensures { result ≡ absent_upper domain }
{
    if domain == 2 { 1.0 } else { floats::infinity() }
}

// A part of which a file has many: how it is read, and where it goes.
pub(crate) trait Part: Copy {
    ghost parser: { Parser Self };

    ghost place: { ℕ → Sizes → Type 0 };

    ghost put_gives: { ℕ → Self → Slices → Slices };

    fn read(reader: &mut Reader) -> Result<Self, FileRefusal>
        ensures { parser reader.old.rest.now ≡ answered result reader.new.rest.now };

    fn put(self, model: &mut ModelSlices, i: usize)
        requires { place i (sizes (lent model.old)) }
        ensures same { SameSlices model.old model.new }
        ensures put { lent model.new ≡ put_gives i self (lent model.old) };

    ghost keeps: { (i : ℕ) (x : Self) (l : Slices) → sizes (put_gives i x l) ≡ sizes l };
}

impl Part for Variable {
    ghost parser = { variable };

    ghost place = { VarPlace };

    ghost put_gives = { put_var };

    ghost keeps = { sizes_var };

    fn read(reader: &mut Reader) -> Result<Variable, FileRefusal> {
        let map = reader.byte()?;
        if 31 < map {
            return Err(FileRefusal::Reserved);
        }
        if 2 < map / 8 % 4 {
            return Err(FileRefusal::Reserved);
        }
        reader.values(map)
    }

    fn put(self, model: &mut ModelSlices, v: usize) {
        model.objective[v] = self.objective;
        model.lower[v] = self.lower;
        model.upper[v] = self.upper;
        model.domain[v] = self.domain;
    }
}

impl Part for Term {
    ghost parser = { term };

    ghost place = { TermPlace };

    ghost put_gives = { put_term };

    ghost keeps = { sizes_term };

    fn read(reader: &mut Reader) -> Result<Term, FileRefusal> {
        let index = reader.short()?;
        let coeff = reader.float()?;
        Ok(Term { index, coeff })
    }

    fn put(self, model: &mut ModelSlices, t: usize) {
        model.index[t] = self.index;
        model.coeff[t] = self.coeff;
    }
}

impl<'a> Reader<'a> {
    // The floats that a variable's map announces.
    fn values(&mut self, map: u8) -> Result<Variable, FileRefusal>
        ensures { values map self.old.rest.now ≡ answered result self.new.rest.now }
    {
        let objective = self.optional(bit(map, 1), 0.0)?;
        let lower = self.optional(bit(map, 2), 0.0)?;
        let domain = map / 8 % 4;
        let upper = self.optional(bit(map, 4), absent_upper(domain))?;
        Ok(Variable {
            objective,
            lower,
            upper,
            domain,
        })
    }

    // The right side that a row's map announces, and the count of its terms, after t terms. That t is at most 512 is
    // asked wherever a row is read: a type for such counts would be made anew at each sum.
    fn side(&mut self, t: usize, map: u8) -> Result<RowHead, FileRefusal>
        requires { t ≤ 512 }
        ensures read { side t map self.old.rest.now ≡ answered result self.new.rest.now }
        ensures few { IfOk result (λ h. t + h.count ≤ 512) }
    {
        let rhs = self.optional(bit(map, 4), 0.0)?;
        let count = self.short()?;
        if 512 < t + count {
            return Err(FileRefusal::TooMany);
        }
        Ok(RowHead {
            cmp: map % 4,
            rhs,
            count,
        })
    }

    pub(crate) fn head(&mut self, t: usize) -> Result<RowHead, FileRefusal>
        requires { t ≤ 512 }
        ensures read { head t self.old.rest.now ≡ answered result self.new.rest.now }
        ensures few { IfOk result (λ h. t + h.count ≤ 512) }
    {
        let map = self.byte()?;
        if 7 < map {
            return Err(FileRefusal::Reserved);
        }
        if 2 < map % 4 {
            return Err(FileRefusal::Reserved);
        }
        self.side(t, map)
    }

    // Both tolerances and the mode, after the counts.
    fn rules(&mut self, vars: usize, rows: usize) -> Result<Settings, FileRefusal>
        ensures { rules vars rows self.old.rest.now ≡ answered result self.new.rest.now }
    {
        let feasibility = self.float()?;
        let int_tol = self.float()?;
        let mode = self.code()?;
        Ok(Settings {
            vars,
            rows,
            feasibility,
            int_tol,
            mode,
        })
    }

    pub(crate) fn settings(&mut self) -> Result<Settings, FileRefusal>
        ensures { settings self.old.rest.now ≡ answered result self.new.rest.now }
    {
        let vars = self.count()?;
        let rows = self.count()?;
        self.rules(vars, rows)
    }
}
