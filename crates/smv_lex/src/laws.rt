// What the definitions say of a place in a text. The functions do nothing: their contracts are the laws.
ghost use Rattle.std.specs.Prelude.{◌+◌, ◌<◌, drop, Err, ◌≡◌, List, ℕ, length, map, ◌∷◌, [], Ok};
ghost use Rattle.smv_core.specs.declared.token.TokenKind.{TokenKind};
ghost use Rattle.smv_lex.specs.declared.front.Front.TheVariants.{Passed, Whole, Broken};
ghost use Rattle.smv_lex.specs.Lexing.{front_of, lexed_from, with_token, lexed};
ghost use Rattle.smv_lex.specs.Comments.{PassesBlock, PassesLine};
ghost use Rattle.smv_lex.specs.Longest.{IsLongest, HasNoToken, HasGreatNumber, HasLongWord, HasOpenComment};
ghost use Rattle.smv_core.specs.Spellings.{signs, reserved_words};

/// A text is read place by place: what stands at its front, and then the same of what comes after it.
pub fn place_by_place()
    ensures end { (at : ℕ) → lexed_from at 0 [] ≡ Ok [] }
    ensures passed { (text : List ℕ) (at n : ℕ) → 0 < length text → front_of text ≡ Passed n → lexed_from at 0 text ≡ lexed_from (at + n) 0 (drop n text) }
    ensures token { (text : List ℕ) (at n : ℕ) (kind : TokenKind) → 0 < length text → front_of text ≡ Whole kind n →
        lexed_from at 0 text ≡ with_token (record { kind = kind; at = at }) (lexed_from (at + n) 0 (drop n text)) }
    ensures fault { (text : List ℕ) (at number : ℕ) → 0 < length text → front_of text ≡ Broken number → lexed_from at 0 text ≡ Err (record { number = number; at = at }) }
{}

/// The token at a place is the longest front of the text that is a sign, a word or a number.
pub fn longest_token()
    ensures { (text : List ℕ) (kind : TokenKind) (n : ℕ) → front_of text ≡ Whole kind n → IsLongest text n kind }
{}

/// What each fault says of its place.
pub fn faults_of_a_place()
    ensures no_token { (text : List ℕ) → front_of text ≡ Broken 1 → HasNoToken text }
    ensures number { (text : List ℕ) → front_of text ≡ Broken 2 → HasGreatNumber text }
    ensures word { (text : List ℕ) → front_of text ≡ Broken 3 → HasLongWord text }
    ensures comment { (text : List ℕ) → front_of text ≡ Broken 4 → HasOpenComment text }
{}

/// Each sign and each reserved word is the token of its bytes.
pub fn spellings_are_tokens()
    ensures signs { map (λ entry. lexed entry.1) signs ≡ map (λ entry. Ok (record { kind = entry.0; at = 0 } ∷ [])) signs }
    ensures words { map (λ entry. lexed entry.1) reserved_words ≡ map (λ entry. Ok (record { kind = entry.0; at = 0 } ∷ [])) reserved_words }
{}

/// What a comment is: up to the first `*/` behind its `/*`, or up to the end of its line.
pub fn comments_are_passed()
    ensures block { (text : List ℕ) → PassesBlock text }
    ensures line { (text : List ℕ) → PassesLine text }
{}
