// The answers of the Rust reference, held against the definitions: proofs/ has the list and its computation. No code.

#![tactic(auto)]
