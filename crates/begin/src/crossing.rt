// src/presolve/mod.rs of microlp 0.7.0, changed: bounds that cross as handed in.
ghost use Rattle.std.specs.Prelude.{◌≡◌};
ghost use Rattle.definition.specs.Begin as definition;

// = crossed. Two lists and no `Input`: it asks of these two alone.
pub(crate) fn crossed(lower: &[f64], upper: &[f64]) -> bool
    ensures { result ≡ definition.crossed lower.now upper.now }
{
    lower.iter().zip(upper).any(|(l, h)| *l > *h)
}
