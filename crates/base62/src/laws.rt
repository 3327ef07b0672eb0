//! Laws: what follows from the definitions alone. These functions do nothing at run time.

pub mod alphabets;
pub mod errors;
pub mod order;
pub mod texts;
pub mod widths;

pub use alphabets::{
    built_in_alphabets, clones_of_alphabets, equality_of_alphabets, letters_are_distinct,
    letters_of_a_kind,
};
pub use errors::{
    clones_of_errors, order_of_alphabet_errors, order_of_canonical_errors, order_of_decode_errors,
    order_of_encode_errors, order_of_fixed_errors, order_of_uuid_errors,
};
pub use order::{order_of_parts, order_of_texts, order_of_two, prefixes_of_texts, scan_of_prefix};
pub use texts::{
    accepted_and_refused, answer_for, canonical_round_trip, concatenation, concatenation_of_two,
    decoded_numbers, exchange_of_case, exchange_of_text, numbers_of_uuids, one_text, round_trip,
    sums_over_places, text_of_number, texts_of_two, uuid_of_number, uuid_strings, uuids_of_two,
    zero_in_front,
};
pub use widths::{
    fixed_round_trip, fixed_texts_of_two, fixed_widths, texts_of_ascii, width_of_number,
    width_of_text,
};
