// What holds of printed texts of type definitions and their meanings.
ghost use Rattle.std.specs.Prelude.{◌≡◌, ◌++◌, ◌⊎◌, ℕ, Bool, Err, List, Ok, Result, Some, false, length, true};
ghost use Rattle.jr_value.specs.Ranges.{IsReadable};
ghost use Rattle.jr_value.specs.Texts.{IsText};
ghost use Rattle.jr_value.specs.Values.{kind_of};
ghost use Rattle.jr_value.specs.declared.value.Value.{Value};
ghost use Rattle.jr_cnd.specs.Meaning.{IsCndAnswer, IsMeaning};
ghost use Rattle.cnd_pieces.specs.Pieces.{content};
ghost use Rattle.cnd_print.specs.Printable.{IsPrintable};
ghost use Rattle.cnd_print.specs.Printing.{cnd_text, is_bare_name, quoted, value_text};
ghost use Rattle.cnd_pieces.specs.Tokens.{goes_on_bare, first_token};
ghost use Rattle.cnd_pieces.specs.declared.piece.TokenKind.TheVariants as token;
ghost use Rattle.jr_cnd.specs.declared.cnd.Cnd.{Cnd};
ghost use Rattle.jr_cnd.specs.declared.fault.NoCnd.{NoCnd};

/// Two texts of one meaning print alike.
pub fn equal_meanings_print_alike()
    ensures { (text other : List ℕ) (meant a b : Cnd)
        → IsMeaning text (Ok meant) → IsMeaning other (Ok meant)
        → IsMeaning text (Ok a) → IsMeaning other (Ok b) → cnd_text a ≡ cnd_text b }
{}

/// What is printed of a text is one token, in which that text is written.
pub fn printed_texts_are_tokens()
    ensures token { (behind_less : Bool) (text rest : List ℕ)
        → first_token behind_less (quoted text ++ rest) ≡ Some (token.Quoted, length (quoted text)) }
    ensures written { (text : List ℕ) → content token.Quoted (quoted text) ≡ text }
{}

/// A name that is printed bare is one token, before bytes that don't go on with it.
pub fn bare_names_are_tokens()
    ensures { (behind_less : Bool) (name rest : List ℕ)
        → is_bare_name name ≡ true → goes_on_bare rest ≡ false
        → first_token behind_less (name ++ rest) ≡ Some (token.Bare, length name) }
{}

/// The text that is printed of a value is read as the value again.
pub fn printed_values_are_read_back()
    ensures { (value : Value) → IsReadable value → IsText (kind_of value) (value_text value) value }
{}

/// What a text means can be printed.
pub fn meanings_can_be_printed()
    ensures { (text : List ℕ) (cnd : Cnd) → IsMeaning text (Ok cnd) → IsPrintable cnd }
{}

/// The canonical text of what can be printed means just that; and who reads it is answered that, unless memory is refused.
pub fn canonical_texts_are_read_back()
    ensures means { (cnd : Cnd) (meant : Result Cnd NoCnd)
        → IsPrintable cnd → IsMeaning (cnd_text cnd) meant → meant ≡ Ok cnd }
    ensures answered { (cnd : Cnd) (answer : Result Cnd NoCnd)
        → IsPrintable cnd → IsCndAnswer (cnd_text cnd) answer
        → (answer ≡ Ok cnd) ⊎ (answer ≡ Err NoCnd.Memory) }
{}
