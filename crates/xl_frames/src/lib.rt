//! A pool of frames of 4 KiB that hands out the lowest free block of an order.
//!
//! `Frames` keeps three sets as bits: the free frames, and the free blocks of 2 MiB and of 1 GiB;
//! `plain::Frames` keeps a flag for each frame and scans. Contracts see either as a list of flags:
//! for each frame, by its number, whether it is free.
#![tactic(auto)]

mod blocks;
pub mod plain;
mod pool;

pub use pool::Frames;
