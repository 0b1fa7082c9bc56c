// Paths, path covers and antichains of a directed graph. No code: specs/ has the definitions, proofs/ the theorems.
#![tactic(auto)]
