#![tactic(auto)]

// Packs whose accents, each with its rules, are written in another order. Laws in proofs/: if one
// loads so does the other, they have one sheet, and one turned back at End is turned back the same.
