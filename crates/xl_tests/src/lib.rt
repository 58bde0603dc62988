//! Tests of what no clause says and no report of the program shows: each read, put and message that
//! fails, memory that is there, and calls that the program doesn't make.
#![tactic(auto)]

#[cfg(test)]
mod any_words;
#[cfg(test)]
mod faults;
#[cfg(test)]
mod memory;
#[cfg(test)]
mod streams;
#[cfg(test)]
mod tables;
#[cfg(test)]
mod texts;
