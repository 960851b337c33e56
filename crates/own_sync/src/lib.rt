// Frames where they lie on a reel: a hunt that ends on a frame's own sync (DFCB tables 10-1 and 10-2). In specs/ the cut of a reel's own words, the
// calls that lock so, and the claim about every list of them; in proofs/ its laws. Definitions and laws; there is no function here.
#![tactic(auto)]
