// Document 01's section Sheet, defined: a sheet's bytes, its reader, and demand 3's words. No code.
#![tactic(auto)]
