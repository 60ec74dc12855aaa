// Of a model of whole numbers, all is said to hold of a whole-number plan exactly where it is a point of the model. No code: see specs/.

#![tactic(auto)]
