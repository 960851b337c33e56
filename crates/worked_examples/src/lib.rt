// The worked examples that paper 01 marks P, and two of paper 02's request 4, as one table (specs/Table.antt) under one statement
// (proofs/Table.antt), computed by the checker from the definitions. There is no code here.
#![tactic(auto)]
