// Presolve keeps the least objective of a model of whole numbers. No code: see specs/.

#![tactic(auto)]
