// What a line says after its name.
use crate::lend::Answer;
use definition::Counts;
use presolve::Presolved;
use std::fmt;

#[derive(Clone, Copy)]
struct Counted(Counts);

impl fmt::Display for Counted {
    fn fmt<W: fmt::Write>(&self, f: &mut fmt::Formatter<W>) -> fmt::Result {
        let k = self.0;
        write!(
            f,
            "{} {} {} {} {}",
            k.rowsDropped, k.boundsTightened, k.varsFixed, k.coeffsTightened, k.passes
        )
    }
}

// The verdict and the five counts; of a model also how many rows are emitted, how many terms the
// rewritten ones have, and how many rows are kept.
#[derive(Clone, Copy)]
pub(crate) struct Said(pub Answer);

impl fmt::Display for Said {
    fn fmt<W: fmt::Write>(&self, f: &mut fmt::Formatter<W>) -> fmt::Result {
        match self.0 {
            Err(refusal) => write!(f, "refused {}", u8::from(refusal)),
            Ok(Presolved::Infeasible(k)) => write!(f, "infeasible {}", Counted(k)),
            Ok(Presolved::Model(x)) => {
                f.write_str(if x.flag { "reduced " } else { "unchanged " })?;
                let (rows, terms, kept) = (x.emitted, x.terms, x.kept);
                write!(f, "{} with {rows} {terms} {kept}", Counted(x.counts))
            }
        }
    }
}

// Whether slices hold what they should.
#[derive(Clone, Copy)]
pub(crate) struct Judged(pub bool);

impl fmt::Display for Judged {
    fn fmt<W: fmt::Write>(&self, f: &mut fmt::Formatter<W>) -> fmt::Result {
        f.write_str(if self.0 { "ok" } else { "bad" })
    }
}
