// Chains, antichains and Dilworth's theorem. No code: specs/ has the definitions, proofs/ the theorems.
#![tactic(auto)]
