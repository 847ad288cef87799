// Document 01's examples on the edge. There is no code: specs/ has the table, proofs/ the statement over it.
#![tactic(auto)]
