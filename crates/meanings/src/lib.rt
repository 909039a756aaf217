// What our maps and duties mean stands in specs/, that they are fit and lawful in proofs/. There is no code here: the
// crates above cite both, and a ghost member can cite a proof only of a crate below its own.
#![tactic(auto)]
