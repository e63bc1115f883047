#![tactic(auto)]

// The starred cases of docs/RULES.md, from roots to cuts, as one proved table (`specs/`), and what NaN does (`proofs/Nan.antt`). The crate has no code.
