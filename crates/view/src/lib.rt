// What the working slices say of the definition's state, and what a step reads of the call beside
// them. See specs/.

#![tactic(auto)]

use definition::Rows;

// What the steps read of the call: the rows as written, the domain of each variable, and the rows of
// each variable as `begin` lists them. That they are a model's (`Known` and its parts) is not an invariant of them:
// it is asked together with the working slices' state, as `Ready`.
#[derive(Clone, Copy)]
pub struct Lists<'a> {
    pub rows: Rows<'a>,
    pub domain: &'a [u8],
    pub adjacency: &'a [usize],
}
