// No operator, sum, meter or normalize gives a NaN in its domain: the claims are in specs/ and proofs/. No code.
#![tactic(auto)]
