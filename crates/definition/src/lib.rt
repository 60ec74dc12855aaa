// src/presolve/model.rs of microlp 0.7.0, changed: the records that go by value, shared by the code
// and the definition in specs/, which names their fields as they stand here.

#![tactic(auto)]

// The rows as they are handed in, list beside list as C lends them: row r's terms are those from starts[r] up to
// starts[r + 1], its comparison 0 for Eq, 1 for Le and 2 for Ge. No method gives a row's span: it
// would ask and say what the two indexings do, and about half of those that read one are handed the starts alone.
#[derive(Clone, Copy)]
pub struct Rows<'a> {
    pub starts: &'a [usize],
    pub index: &'a [usize],
    pub coeff: &'a [f64],
    pub cmp: &'a [u8],
    pub rhs: &'a [f64],
}

// What a call hands in. Domains are 0 for Integer, 1 for Real and 2 for Boolean; modes 0 for Lp, 1 for
// Mip and 2 for Mip with dual fixing: bytes, since a caller in C lends them so.
#[derive(Clone, Copy)]
pub struct Input<'a> {
    pub obj: &'a [f64],
    pub lower: &'a [f64],
    pub upper: &'a [f64],
    pub domain: &'a [u8],
    pub rows: Rows<'a>,
    pub mode: u8,
    pub feas: f64,
    pub int_tol: f64,
}

// What a step answers in place of a result where it finds that no point is left.
#[derive(Clone, Copy, PartialEq, Eq, Debug)]
pub struct Infeasible;

// A row's activity over a box: the smallest and the largest sum, how many terms are infinite on each
// side, the magnitudes summed at each corner, and how far the bound tolerances reach beyond it.
#[derive(Clone, Copy)]
pub struct Activity {
    pub l: f64,
    pub u: f64,
    pub ninf_l: usize,
    pub ninf_u: usize,
    pub absL: f64,
    pub absU: f64,
    pub slack_l: f64,
    pub slack_u: f64,
}

// `PresolveStats`: the five counts.
#[derive(Clone, Copy)]
pub struct Counts {
    pub rowsDropped: usize,
    pub boundsTightened: usize,
    pub varsFixed: usize,
    pub coeffsTightened: usize,
    pub passes: usize,
}
