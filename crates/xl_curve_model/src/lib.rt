//! Definitions of hit curves: how often TLB arrays of each width from 1 to 64 are hit by the same
//! look-ups, and the curve of a row's run. It has no code.
#![tactic(auto)]
