#![tactic(auto)]

// Document 01's bench cases, "proved together", through whole calls: theorems alone (specs/Cases).
