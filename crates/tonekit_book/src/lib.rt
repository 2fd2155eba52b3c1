#![tactic(auto)]

// What a pack says, with no word of where in the file it says it, and the lookup in that. Laws in
// proofs/: a pack's lookups and its sheet are those of its book, and its book is that of its records.
