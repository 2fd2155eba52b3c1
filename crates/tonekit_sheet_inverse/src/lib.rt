#![tactic(auto)]

// A sheet that loads is the sheet of what it holds: reading and writing are inverse, and no two
// sheets say the same. The laws stand in proofs/.
