// src/presolve/work.rs of microlp 0.7.0, changed: the parts of presolve that are functions of numbers
// and records alone, each float operation once and in the Rust's order.
// No slice is read or written. Each contract is an equation with a function of the definition, on every
// input; the definition's files say why each step is right.
#![tactic(auto)]

mod activity;
mod begin;
mod bounds;
mod fixing;
mod folding;
mod forcing;
mod implied;
mod params;
mod rewrites;
mod sides;
mod singles;

pub use activity::{activity_step, no_activity, range_max, range_min};
pub use begin::{rounded_lower, rounded_upper};
pub use bounds::{
    emits_tighter, emitted_lower, emitted_upper, lower_int_move, lower_real_move, lower_stays,
    upper_int_move, upper_real_move, upper_stays,
};
use definition::Activity;
pub use fixing::{blocks, fixed_at, is_int_domain, is_mip, may_fall, may_rise};
pub use folding::rewrite_room;
pub use forcing::corner;
pub use implied::bounds_above;
pub use params::{
    COEFF_MIN_IMPROVE, COEFF_TIGHTEN_ROW_CAP, COEFF_TIGHTEN_SHORT_ROW, IMPROVE_REL, MAX_PASSES,
    MAX_ROUNDS, REDUNDANT_MARGIN, max_rounds, max_waves,
};
pub use rewrites::{binary, rewrite_count, spared};
pub use sides::rhs_mag;

// What a row's formulas look at, by value: its two sides, the magnitude of the terms folded out of
// it and their sum, the tolerance that it is held to, and how many terms it has as written.
#[derive(Clone, Copy)]
pub struct Limits {
    pub lo: f64,
    pub hi: f64,
    pub fold_scale: f64,
    pub shift: f64,
    pub feas: f64,
    pub terms: usize,
}

// One side of a row: its bound, and the activity's sum, infinite terms, magnitude and slack at the
// corner that meets it.
#[derive(Clone, Copy)]
pub struct Side {
    pub bound: f64,
    pub sum: f64,
    pub ninf: usize,
    pub abs: f64,
    pub slack: f64,
}

// A variable's bounds, and the tolerance of each. What reads the bounds alone takes two numbers: it has no tolerance to hand in.
#[derive(Clone, Copy)]
pub struct Ends {
    pub lo: f64,
    pub hi: f64,
    pub tol_lo: f64,
    pub tol_hi: f64,
}

// How far the corner of a row is short of the row's bound, and the magnitude that was summed for it.
#[derive(Clone, Copy)]
pub struct Sliver {
    pub gap: f64,
    pub mag: f64,
}

// Which side a row's one finite bound is on.
#[derive(Clone, Copy)]
pub enum Form {
    Le,
    Ge,
}

// A row as its terms are looked at: which side its one finite bound is on, if it has just one, the room of its vacuous branch, its
// limits and its activity. The form is an Option, since the promises stand for a row with no such side too.
#[derive(Clone, Copy)]
pub struct OneSided {
    pub form: Option<Form>,
    pub room: f64,
    pub limits: Limits,
    pub act: Activity,
}

// A rewrite of a term: its new coefficient, and the row's new bound where that moves.
#[derive(Clone, Copy)]
pub struct Rewrite {
    pub coeff: f64,
    pub bound: Option<Rebound>,
}

// A row's new bound before its relaxation, and how far it moved.
#[derive(Clone, Copy)]
pub struct Rebound {
    pub to: f64,
    pub by: f64,
}
