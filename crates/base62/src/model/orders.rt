//! How texts compare, and which alphabets ascend.
#![tactic(auto, unfolding(crate::proofs::OnLiterals::base62_on_literals))]

ghost use Rattle.std.specs.Prelude.{◌≡◌, ◌++◌, [], ◌∷◌, replicate, codes, true, false, Some};
ghost use Rattle.std.specs.List.{range_with_len};
ghost use Rattle.std.specs.declared.cmp.Ordering.TheVariants.{Less, Equal, Greater};
ghost use Rattle.base62.specs.Alphabet.{alternative};
ghost use Rattle.base62.specs.Order.{lexicographic_order, partial_order, IsNotAfter, shortlex_order, Ascends, is_ascending};

/// How some texts compare in lexicographic order.
pub fn lexicographic_order_by_example()
    ensures first_difference { lexicographic_order (codes "10") (codes "z") ≡ Less }
    ensures first_difference_back { lexicographic_order (codes "z") (codes "10") ≡ Greater }
    ensures later_difference { lexicographic_order (codes "1z0") (codes "1a9") ≡ Greater }
    ensures beginning { lexicographic_order (codes "1") (codes "10") ≡ Less }
    ensures beginning_back { lexicographic_order (codes "10") (codes "1") ≡ Greater }
    ensures empty { lexicographic_order [] (codes "0") ≡ Less }
    ensures same { lexicographic_order (codes "LZ") (codes "LZ") ≡ Equal }
    ensures before { IsNotAfter (codes "10") (codes "z") }
    ensures not_after_itself { IsNotAfter (codes "LZ") (codes "LZ") }
    ensures after { IsNotAfter (codes "z") (codes "10") → ⊥ }
    ensures after_beginning { IsNotAfter (codes "10") (codes "1") → ⊥ }
{}

/// How `<` and the other operators compare some texts.
pub fn partial_order_by_example()
    ensures first_difference { partial_order (codes "10") (codes "z") ≡ Some Less }
    ensures later_difference { partial_order (codes "1z0") (codes "1a9") ≡ Some Greater }
    ensures beginning { partial_order (codes "1") (codes "10") ≡ Some Less }
    ensures beginning_back { partial_order (codes "10") (codes "1") ≡ Some Greater }
    ensures same { partial_order (codes "LZ") (codes "LZ") ≡ Some Equal }
{}

/// How some texts compare in shortlex order.
pub fn shortlex_order_by_example()
    ensures shorter { shortlex_order (codes "z") (codes "10") ≡ Less }
    ensures longer { shortlex_order (codes "10") (codes "z") ≡ Greater }
    ensures empty { shortlex_order [] (codes "0") ≡ Less }
    ensures lesser { shortlex_order (codes "1z") (codes "z1") ≡ Less }
    ensures greater { shortlex_order (codes "z1") (codes "1z") ≡ Greater }
    ensures same { shortlex_order (codes "LZ") (codes "LZ") ≡ Equal }
{}

/// Letters that ascend, and letters that do not: two are equal, or the later is less, at several
/// places. 33 and 94 are the first and the last of the letters that ascend.
pub fn ascents_by_example()
    ensures from_33 { Ascends (range_with_len 33 62) }
    ensures one_byte { Ascends (replicate 62 48) → ⊥ }
    ensures first_two_equal { Ascends (33 ∷ range_with_len 33 61) → ⊥ }
    ensures last_two_equal { Ascends (range_with_len 33 61 ++ 93 ∷ []) → ⊥ }
    ensures last_descends { Ascends (range_with_len 33 61 ++ 33 ∷ []) → ⊥ }
    ensures first_descends { Ascends (94 ∷ range_with_len 33 61) → ⊥ }
    ensures alternative { Ascends alternative → ⊥ }
{}

/// The results of the test of literal letters for the same.
pub fn ascents_tested_by_example()
    ensures from_33 { is_ascending (range_with_len 33 62) ≡ true }
    ensures first_two_equal { is_ascending (33 ∷ range_with_len 33 61) ≡ false }
    ensures last_two_equal { is_ascending (range_with_len 33 61 ++ 93 ∷ []) ≡ false }
    ensures last_descends { is_ascending (range_with_len 33 61 ++ 33 ∷ []) ≡ false }
    ensures first_descends { is_ascending (94 ∷ range_with_len 33 61) ≡ false }
    ensures alternative { is_ascending alternative ≡ false }
{}
