// Demand 3 and Paper 7, that the heads settle: specs/ has the statements and their instances, proofs/ the proof, in the order of its steps A to I. There is
// no code.
#![tactic(auto)]
