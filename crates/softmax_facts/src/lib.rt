// The theorems about the softmax definition stand in proofs/.
#![tactic(auto)]
