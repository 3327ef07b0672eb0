//! The messages of errors, and their order.
#![tactic(auto, unfolding(crate::proofs::OnLiterals::base62_on_literals))]

ghost use Rattle.std.specs.Prelude.{◌≡◌, ◌^◌, ◌-◌, codes};
ghost use Rattle.std.specs.declared.cmp.Ordering.TheVariants.{Less, Equal, Greater};
ghost use Rattle.base62.specs.Fault.{escaped, decode_error_text, canonical_error_text, fixed_error_text, encode_error_text, alphabet_error_text, uuid_error_text};
ghost use Rattle.base62.specs.Fault.{decode_error_order, canonical_error_order, fixed_error_order, alphabet_error_order};
ghost use Rattle.base62.specs.declared.fault.AlphabetError.TheVariants.{Repeated};
ghost use Rattle.base62.specs.declared.fault.CanonicalError.TheVariants.{LeadingZero, Decode};
ghost use Rattle.base62.specs.declared.fault.DecodeError.TheVariants.{ArithmeticOverflow, EmptyInput, InvalidBase62Byte};
ghost use Rattle.base62.specs.declared.fault.EncodeError.TheVariants.{BufferTooSmall};
ghost use Rattle.base62.specs.declared.fault.FixedError.TheVariants.{WrongLength, Decode as FixedDecode};
ghost use Rattle.base62.specs.declared.fault.UuidError.TheVariants.{InvalidUuid};

/// The bytes with an escape of a backslash and a character.
pub fn escapes_by_example()
    ensures tab { escaped 9 ≡ codes "\\t" }
    ensures line_feed { escaped 10 ≡ codes "\\n" }
    ensures carriage_return { escaped 13 ≡ codes "\\r" }
    ensures double_quote { escaped 34 ≡ codes "\\\"" }
    ensures single_quote { escaped 39 ≡ codes "\\'" }
    ensures backslash { escaped 92 ≡ codes "\\\\" }
{}

/// Bytes that are not escaped: the first, the last, and those beside an escaped one.
pub fn plain_bytes_by_example()
    ensures space { escaped 32 ≡ codes " " }
    ensures exclamation_mark { escaped 33 ≡ codes "!" }
    ensures number_sign { escaped 35 ≡ codes "#" }
    ensures ampersand { escaped 38 ≡ codes "&" }
    ensures opening_parenthesis { escaped 40 ≡ codes "(" }
    ensures opening_bracket { escaped 91 ≡ codes "[" }
    ensures closing_bracket { escaped 93 ≡ codes "]" }
    ensures circumflex { escaped 94 ≡ codes "^" }
    ensures letter { escaped 110 ≡ codes "n" }
    ensures tilde { escaped 126 ≡ codes "~" }
{}

/// Bytes that are escaped by lowercase hexadecimal digits.
pub fn hexadecimal_by_example()
    ensures null { escaped 0 ≡ codes "\\x00" }
    ensures backspace { escaped 8 ≡ codes "\\x08" }
    ensures vertical_tab { escaped 11 ≡ codes "\\x0b" }
    ensures form_feed { escaped 12 ≡ codes "\\x0c" }
    ensures shift_out { escaped 14 ≡ codes "\\x0e" }
    ensures below_space { escaped 31 ≡ codes "\\x1f" }
    ensures delete { escaped 127 ≡ codes "\\x7f" }
    ensures above_ascii { escaped 128 ≡ codes "\\x80" }
    ensures capital_letter_behind { escaped 218 ≡ codes "\\xda" }
    ensures greatest { escaped 255 ≡ codes "\\xff" }
{}

/// The messages of errors; 33 is `!`.
pub fn texts_by_example()
    ensures overflow { decode_error_text ArithmeticOverflow
        ≡ codes "Decoded number cannot fit into a `u128`" }
    ensures empty { decode_error_text EmptyInput ≡ codes "Encoded input is an empty string" }
    ensures bad_byte { decode_error_text (InvalidBase62Byte 33 7)
        ≡ codes "Encoded input contains the invalid byte b'!' at index 7" }
    ensures bad_first { decode_error_text (InvalidBase62Byte 10 0)
        ≡ codes "Encoded input contains the invalid byte b'\\n' at index 0" }
    ensures longest { decode_error_text (InvalidBase62Byte 255 (2 ^ 64 - 1))
        ≡ codes "Encoded input contains the invalid byte b'\\xff' at index 18446744073709551615" }
    ensures leading_zero { canonical_error_text LeadingZero
        ≡ codes "Encoded input has a leading zero" }
    ensures canonical_empty { canonical_error_text (Decode EmptyInput)
        ≡ codes "Encoded input is an empty string" }
    ensures wrong_length { fixed_error_text WrongLength
        ≡ codes "Encoded input does not have the given width" }
    ensures fixed_empty { fixed_error_text (FixedDecode EmptyInput)
        ≡ codes "Encoded input is an empty string" }
    ensures small_buffer { encode_error_text BufferTooSmall
        ≡ codes "Buffer too small to encode the number" }
    ensures repeated { alphabet_error_text (Repeated 33 7)
        ≡ codes "Alphabet repeats the byte b'!' at index 7" }
    ensures repeated_last { alphabet_error_text (Repeated 39 61)
        ≡ codes "Alphabet repeats the byte b'\\'' at index 61" }
    ensures invalid_uuid { uuid_error_text InvalidUuid ≡ codes "Not a UUID" }
{}

/// The order of errors of decoding.
pub fn decode_orders_by_example()
    ensures same { decode_error_order (InvalidBase62Byte 33 7) (InvalidBase62Byte 33 7) ≡ Equal }
    ensures overflow_same { decode_error_order ArithmeticOverflow ArithmeticOverflow ≡ Equal }
    ensures empty_same { decode_error_order EmptyInput EmptyInput ≡ Equal }
    ensures overflow_first { decode_error_order ArithmeticOverflow EmptyInput ≡ Less }
    ensures empty_after { decode_error_order EmptyInput ArithmeticOverflow ≡ Greater }
    ensures empty_before_bad { decode_error_order EmptyInput (InvalidBase62Byte 0 0) ≡ Less }
    ensures overflow_before_bad { decode_error_order ArithmeticOverflow (InvalidBase62Byte 0 0)
        ≡ Less }
    ensures bad_after_empty { decode_error_order (InvalidBase62Byte 0 0) EmptyInput ≡ Greater }
    ensures bad_after_overflow { decode_error_order (InvalidBase62Byte 0 0) ArithmeticOverflow
        ≡ Greater }
    ensures lesser_byte { decode_error_order (InvalidBase62Byte 33 7) (InvalidBase62Byte 63 1)
        ≡ Less }
    ensures greater_byte { decode_error_order (InvalidBase62Byte 63 1) (InvalidBase62Byte 33 7)
        ≡ Greater }
    ensures lesser_index { decode_error_order (InvalidBase62Byte 33 1) (InvalidBase62Byte 33 7)
        ≡ Less }
    ensures greater_index { decode_error_order (InvalidBase62Byte 33 7) (InvalidBase62Byte 33 1)
        ≡ Greater }
{}

/// The order of errors of canonical decoding.
pub fn canonical_orders_by_example()
    ensures same { canonical_error_order LeadingZero LeadingZero ≡ Equal }
    ensures zero_first { canonical_error_order LeadingZero (Decode ArithmeticOverflow) ≡ Less }
    ensures zero_after { canonical_error_order (Decode ArithmeticOverflow) LeadingZero ≡ Greater }
    ensures as_decoding { canonical_error_order (Decode ArithmeticOverflow) (Decode EmptyInput)
        ≡ Less }
{}

/// The order of errors of fixed decoding.
pub fn fixed_orders_by_example()
    ensures same { fixed_error_order WrongLength WrongLength ≡ Equal }
    ensures length_first { fixed_error_order WrongLength (FixedDecode ArithmeticOverflow) ≡ Less }
    ensures length_after { fixed_error_order (FixedDecode ArithmeticOverflow) WrongLength
        ≡ Greater }
    ensures as_decoding { fixed_error_order (FixedDecode ArithmeticOverflow) (FixedDecode EmptyInput) ≡ Less }
{}

/// The order of errors of alphabets.
pub fn alphabet_orders_by_example()
    ensures same { alphabet_error_order (Repeated 33 7) (Repeated 33 7) ≡ Equal }
    ensures lesser_byte { alphabet_error_order (Repeated 33 7) (Repeated 63 1) ≡ Less }
    ensures greater_byte { alphabet_error_order (Repeated 63 1) (Repeated 33 7) ≡ Greater }
    ensures lesser_index { alphabet_error_order (Repeated 33 1) (Repeated 33 7) ≡ Less }
    ensures greater_index { alphabet_error_order (Repeated 33 7) (Repeated 33 1) ≡ Greater }
{}
