// The theorems about the split stand in proofs/.
#![tactic(auto)]
