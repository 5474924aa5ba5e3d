// The theorems about the exact sum of softmax's weights stand in proofs/.
#![tactic(auto)]
