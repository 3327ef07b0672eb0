//! What follows from the definitions alone.

ghost use Rattle.std.specs.Prelude.{◌≡◌, ◌≢◌, ℕ, List, [], ◌∷◌, ◌++◌};
ghost use Rattle.std.specs.List.{All};
ghost use Rattle.base62_cli.specs.Lines.{lines_of};
ghost use Rattle.base62_cli.specs.Output.{IsOutput};

/// States that every input has exactly one output.
pub fn one_output()
    ensures exists { (input : List ℕ) → (output : List ℕ) × IsOutput input output }
    ensures only { (input a b : List ℕ) → IsOutput input a → IsOutput input b → a ≡ b }
{
    base62::laws::built_in_alphabets();
    base62::laws::one_text();
}

/// States where lines end. An empty input has no line. A byte 10 ends the line before it. Nonempty
/// bytes without a byte 10 are one line. These three determine the lines of every input.
pub fn lines_of_an_input()
    ensures empty { lines_of [] ≡ [] }
    ensures ended { (line bytes : List ℕ) → All (λ b. b ≢ 10) line
        → lines_of (line ++ 10 ∷ bytes) ≡ line ∷ lines_of bytes }
    ensures rest { (b : ℕ) (line : List ℕ) → All (λ c. c ≢ 10) (b ∷ line)
        → lines_of (b ∷ line) ≡ (b ∷ line) ∷ [] }
{}
