//! Helpers of the tests: alphabets with the calls for them, numbers with texts from outside, a reference encoder and
//! decoder, the checks that compare calls with them, and a writer that records its calls.

pub(crate) mod alphabets;
pub(crate) mod checks;
pub(crate) mod reference;
pub(crate) mod writers;
