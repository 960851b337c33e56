// Steps over a reel as it comes, cut in any way: two lists of them that take the same bytes of the reel leave the same feeder and the same area, and complete
// the same major frames. In specs/ what a list of steps is, by their contract alone; in proofs/ the law. There is no function here.
#![tactic(auto)]
