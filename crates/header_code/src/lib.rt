// The (10, 6) code that protects a VCDU header (paper 02, request 11): in specs/ its code words and its generator; in proofs/ that the decoder of
// header_patterns is right. Definitions and laws; there is no function here.
#![tactic(auto)]
