// Where the records of `orbit` stand in word 72, held to tables 17 to 20 of the book as `word72_items` has them (specs/Items.antt), computed by the
// checker from the definitions. There is no code here.
#![tactic(auto)]
