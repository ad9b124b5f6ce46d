// No code: the definitions of documents 01 and 02 (`specs/`), and the theorems about them (`proofs/`).

#![tactic(auto)]
