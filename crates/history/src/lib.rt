// Demand 3: after any run of calls, each byte and word of a processor holds what the last accepted
// call naming it put there, and a save put back restores both memories. specs/ says it, proofs/
// proves it of the definitions that the contracts cite. No code.
#![tactic(auto)]
