// laws: no code. Forms in which the definitions are written (specs/) and the laws that proofs cite (proofs/).
#![tactic(auto)]
