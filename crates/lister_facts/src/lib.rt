// The theorems about the lister stand in proofs/.
#![tactic(auto)]
