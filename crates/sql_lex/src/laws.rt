// What holds of cuts.
ghost use Rattle.std.specs.Prelude.{◌≡◌, ℕ, List};
ghost use Rattle.sql_lex.specs.Tokens.{AreTokens, Stops};
ghost use Rattle.sql_lex.specs.declared.token.Token.{Token};

/// A text is cut into tokens in one way, up to one place.
pub fn one_cut()
    ensures { (text : List ℕ) (m n : ℕ) (ts us : List Token) → AreTokens text 0 ts m → Stops text m → AreTokens text 0 us n → Stops text n → (ts ≡ us) × (m ≡ n) }
{}
