// Document 01's demands as claims about what a caller holds, calls of report, ask, put and remove by their contracts; and what every
// run does, where it takes the laws of several crates: its numbers, PAGENUM at its end, its jumps, its fields. Definitions are in
// specs/, the theorems in proofs/.
#![tactic(auto)]
