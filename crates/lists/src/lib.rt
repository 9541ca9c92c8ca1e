// Specifications and laws of lists and tests; no code.

#![tactic(auto)]
