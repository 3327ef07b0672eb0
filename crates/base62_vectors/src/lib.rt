//! Tests of `base62` with values from outside and a reference implementation, and of counted calls, whose contracts state
//! the result and the steps.
#![tactic(auto)]

#[cfg(test)]
mod codec;
#[cfg(test)]
mod count;
#[cfg(test)]
mod custom_alphabets;
#[cfg(test)]
mod failing;
#[cfg(test)]
mod fault;
#[cfg(test)]
mod key;
#[cfg(test)]
mod malformed;
#[cfg(test)]
mod memory;
#[cfg(test)]
mod number;
#[cfg(test)]
mod show;
pub mod steps;
#[cfg(test)]
mod support;
#[cfg(test)]
mod target;
