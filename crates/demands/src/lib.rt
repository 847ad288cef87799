// What holds of every reading: demand 3, and that no root is lost. There is no code: specs/ has the statements, proofs/ the theorems.
#![tactic(auto)]
