// How wrong symbols of a VCDU header are found (paper 02, request 11): in specs/ the field and the decoder; in proofs/ that every pattern of at most
// two wrong symbols is found again, a long test that is computed once here and that no edit repeats. There is no function here.
#![tactic(auto)]
