// Lists of calls: when no phase correction takes the wide way. There is no code; specs/Quiet.antt has the claim.
#![tactic(auto)]
