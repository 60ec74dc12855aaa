// No row is lost, and what else holds of every answer of the definition. No code: see specs/.

#![tactic(auto)]
