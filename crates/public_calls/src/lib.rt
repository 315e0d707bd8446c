//! The calls that the program doesn't make, each made once as a caller outside its crate makes it, and runs over a host in memory.
//!
//! It has tests alone: no other crate has one, since a crate with tests is proved twice.
#![tactic(auto)]

#[cfg(test)]
mod tests;
