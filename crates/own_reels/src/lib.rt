// Reels as they come, above the theorem of `own_sync`. In specs/ the bytes that the reader is handed for a reel, said of the whole reel; that nothing
// depends on how it is cut; what is paid of a reel that the writer made; and how soon a reel is read again after damage. In proofs/ their laws.
// Definitions and laws; there is no function here.
#![tactic(auto)]
