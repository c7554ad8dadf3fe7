// Lists of rounds of a rack: specs/Rounds.antt has the claims. There is no code.
#![tactic(auto)]
