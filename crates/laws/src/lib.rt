// The theorems about the meaning: specs/ states the third demand, proofs/ shows it and the laws that the code is proved by. No code.

#![tactic(auto)]
