// The theorems about the extremes stand in proofs/.
#![tactic(auto)]
