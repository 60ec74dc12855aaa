// Presolve keeps exactly the points of a model of whole numbers. No code: see specs/.

#![tactic(auto)]
