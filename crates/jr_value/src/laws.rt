// What holds of the order of values.
ghost use Rattle.std.specs.Prelude.{◌≡◌, ◌<◌, ◌^◌, ℕ};
ghost use Rattle.std.specs.Ordering.{nat_cmp};
ghost use Rattle.jr_path.specs.Names.{name_cmp};
ghost use Rattle.jr_value.specs.Words.{identifier_text};

/// The numbers of identifiers order as their texts do, by bytes.
pub fn identifiers_order_as_their_texts()
    ensures { (a b : ℕ) → a < 2 ^ 128 → b < 2 ^ 128 → name_cmp (identifier_text a) (identifier_text b) ≡ nat_cmp a b }
{}
