// The meaning of documents 01 and 02: definitions in specs/, tables computed from them in proofs/. The theorems are in
// crates/laws. No code.

#![tactic(auto)]
