// Definitions and laws on lists for loops, over any element: specs/ and proofs/. There is no code here.
#![tactic(auto)]
