//! Examples of the definitions that contracts use, from `specs/`: what holds, and what does not.
//!
//! These functions do nothing at run time. Each states facts about the definitions alone.

pub mod alphabets;
pub mod decodings;
pub mod displays;
pub mod encodings;
pub mod faults;
pub mod laws;
pub mod orders;
pub mod prefixes;
pub mod texts;
pub mod uuids;
