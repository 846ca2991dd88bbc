// Intel HEX, in which the bench programmer reads and writes an image: which texts there are, how one is
// read and written, and what is wrong with a text that is none. specs/ says it, and proofs/ proves that
// reading and the format agree, both ways. No code: that is in images.
#![tactic(auto)]
