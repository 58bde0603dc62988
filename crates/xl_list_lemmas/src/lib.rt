//! Definitions and lemmas on lists that the tables, the machine and the laws cite: members found by
//! tests, members that occur once, how many pass a test, recency lists, and buckets. Nothing here
//! speaks of leaves, mappings or walks. It has no code.
#![tactic(auto)]
