#![tactic(auto)]

// A pack as a list of records, each by its own bytes: what the reader says of a record turns on
// those bytes and on a tally of the records before it. Laws in proofs/: a pack loads exactly if its
// records read, one after the other.
