#![tactic(auto)]

// Laws of sheets, on document 01's definitions: a sheet is read back as what it was written from, and
// two sheets are equal exactly when all that their stations hold agrees. They stand in proofs/.
