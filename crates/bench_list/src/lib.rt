// Document 01's bench list: one table, specs/List.antt, and one theorem, proofs/Holds.antt. No code.
#![tactic(auto)]
