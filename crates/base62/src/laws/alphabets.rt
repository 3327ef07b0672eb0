//! The laws on alphabets.

ghost use Rattle.std.specs.Prelude.{◌≡◌, ◌<◌, ◌↔◌, ℕ, Bool, IsTrue, List, true};
ghost use Rattle.std.specs.List.{AllPass, list_all};
ghost use Rattle.base62.specs.Alphabet.{IsAlphabet, AreLetters, standard, alternative};
ghost use Rattle.base62.specs.Order.{Ascends};

use crate::alphabet::Alphabet;

/// The standard and the alternative alphabet are 62 bytes each, of which no two are equal. The
/// letters of the standard one ascend.
#[tactic(auto, using(crate::proofs::AlphabetLemmas::standard_is_alphabet, crate::proofs::AlphabetLemmas::alternative_is_alphabet, crate::proofs::OrderLemmas::standard_ascends))]
pub fn built_in_alphabets()
    ensures standard { IsAlphabet standard }
    ensures alternative { IsAlphabet alternative }
    ensures ascends { Ascends standard }
{}

/// The letters of an alphabet are 62 bytes, of which no two are equal. Laws over any alphabet
/// require this.
pub fn letters_are_distinct(alphabet: &Alphabet)
    ensures { IsAlphabet alphabet.now }
{
    let _ = alphabet.characters();
}

/// If each letter of an alphabet passes a test, each letter of a text passes it. For a literal, the
/// prover computes the test.
pub fn letters_of_a_kind(alphabet: &Alphabet)
    ensures passed { (p : ℕ → Bool) (text : List ℕ) → AllPass p alphabet.now
        → AreLetters alphabet.now text → AllPass p text }
    ensures tested { (p : ℕ → Bool) (text : List ℕ) → IsTrue (list_all p alphabet.now)
        → AreLetters alphabet.now text → AllPass p text }
{}

/// Two alphabets are equal exactly if their letters are.
pub fn equality_of_alphabets()
    ensures { (a b : List ℕ) → (⟦<Alphabet as PartialEq>⟧.eq a b ≡ true) ↔ (a ≡ b) }
{}

/// A clone of an alphabet equals it, and cloning never fails.
pub fn clones_of_alphabets()
    ensures clone { (a b : List ℕ) → ⟦<Alphabet as Clone>⟧.is_clone a b → b ≡ a }
    ensures always { (a : List ℕ) → ⟦<Alphabet as Clone>⟧.is_infallible a }
{}
