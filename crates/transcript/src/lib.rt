// What a whole input of the stream gives as whole output; no code. Start at specs/Lib.antt.

#![tactic(auto)]
