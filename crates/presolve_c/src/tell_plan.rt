// What is said of a plan as C is handed it: a code, and the variable or row.
ghost use Rattle.std.specs.Prelude.{◌≡◌};
ghost use Rattle.presolve_c.specs.PlanFace.{verdict_code, verdict_place};

use plan::Verdict;

#[tactic(auto, unfolding(crate::specs::PlanFace::verdict_code))]
pub(crate) fn code(verdict: Verdict) -> u8
    ensures { result ≡ verdict_code verdict }
{
    match verdict {
        Verdict::AllHold => 0,
        Verdict::Lower(_) => 101,
        Verdict::Upper(_) => 102,
        Verdict::NotWhole(_) => 103,
        Verdict::Row(_) => 104,
    }
}

// 0 where all hold.
#[tactic(auto, unfolding(crate::specs::PlanFace::verdict_place))]
pub(crate) fn place(verdict: Verdict) -> usize
    ensures { result ≡ verdict_place verdict }
{
    match verdict {
        Verdict::AllHold => 0,
        Verdict::Lower(v) => v,
        Verdict::Upper(v) => v,
        Verdict::NotWhole(v) => v,
        Verdict::Row(r) => r,
    }
}
