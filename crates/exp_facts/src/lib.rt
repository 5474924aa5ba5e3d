// Facts about the definitions of Exp and ReducedRangeExp. No code.
#![tactic(auto)]
