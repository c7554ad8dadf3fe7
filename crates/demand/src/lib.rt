// Demand 3 for the calls of both formats: the claim of calls/specs/Demand.antt, shown of the functions. No code.
#![tactic(auto)]
