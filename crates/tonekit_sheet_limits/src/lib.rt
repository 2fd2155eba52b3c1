#![tactic(auto)]

// Every pack that loads gives a source within the limits of a sheet: laws on the definitions of packs, lookups
// and sheets (proofs/OfPack.antt), and the bytes that the longest sheet takes (proofs/Size.antt).
