// What the contracts promise together is mathematics: no code, only the definitions (specs/) and the theorems (proofs/).
#![tactic(auto)]
