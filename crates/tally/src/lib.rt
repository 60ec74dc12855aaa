// That no count of presolve reaches 2^64, so that counts kept modulo 2^64 are exact. No code: see specs/.

#![tactic(auto)]
