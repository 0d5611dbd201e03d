//! Laws of tokens. Each holds of all values, and its function does nothing.

ghost use Rattle.std.specs.Prelude.{◌≡◌, ℕ, List};
ghost use Rattle.sdf_lex.specs.Tokens.{Token, tokens_of};
ghost use Rattle.sdf_lex.specs.Texts.{AreTokens};

/// A text has tokens, and no others.
pub fn tokens_of_texts()
    ensures are { (text : List ℕ) → AreTokens 0 text (tokens_of text) }
    ensures only { (text : List ℕ) (ts : List Token) → AreTokens 0 text ts → ts ≡ tokens_of text }
{}
