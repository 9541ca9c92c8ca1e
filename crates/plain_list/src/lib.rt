// Specifications alone: one step of the plain list (specs/Lib.antt).

#![tactic(auto)]
