// What holds of texts of type definitions and their meanings.
ghost use Rattle.std.specs.Prelude.{◌≡◌, ℕ, List, Result};
ghost use Rattle.jr_cnd.specs.Meaning.{IsMeaning};
ghost use Rattle.jr_cnd.specs.declared.cnd.Cnd.{Cnd};
ghost use Rattle.jr_cnd.specs.declared.fault.NoCnd.{NoCnd};

/// A text has one meaning at most.
pub fn one_meaning()
    ensures { (text : List ℕ) (a b : Result Cnd NoCnd)
        → IsMeaning text a → IsMeaning text b → a ≡ b }
{}
