#![tactic(auto)]

// What is proved of whole calls, on the definitions that the contracts of `judge`, `judge_sheet` and
// `write_sheet` cite: proofs/Demand2.antt, proofs/Demand3.antt, proofs/Names.antt.
