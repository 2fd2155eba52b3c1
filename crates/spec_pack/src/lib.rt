// Document 01's section Pack, defined: which bytes are a pack. No code.
#![tactic(auto)]
