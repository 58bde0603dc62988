//! Definitions and lemmas on mappings that the tables, the machine and the laws cite: leaves put in
//! and taken out, kept leaves and their tags, counts of leaves, what is fresh in arrays and caches,
//! pools of frames, and rows served together. It has no code.
#![tactic(auto)]
