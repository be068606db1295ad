// Nothing runs here: specs/ says what everything means, proofs/ what follows from it.
#![tactic(auto)]
