// The words of the command line, read by a table.
ghost use Rattle.std.specs.Prelude.{IsSome, Option, option_copied, ◌≡◌, ◌≢◌, ◌++◌, ◌∷◌, ◌≤◌, ◌↔◌, ℕ, Bool, List, MatchOption, IsTrue, map, string_bytes, bytes_eq, codes, [], option_map};
ghost use Rattle.std.specs.List.{find, IsDistinct};
ghost use Rattle.std.specs.Map.{lookup, keys_of};
ghost use Rattle.repo_top.specs.Words.{TableRow, table_row, row_option, AreGiven, AreGenWords, AreRunWords, Begins, GivesNumber, IsNumber, IsOption, HasNoEquals, IsRequiredNumber, IsRow, SpellOptions, MakesMeaning, WordsMean, AreOptions, documents_words, option_word, verb_row, IsGivenBy, FitsOption};
ghost use Rattle.repo_top.specs.declared.words.Given.{Given};
ghost use Rattle.repo_top.specs.declared.words.Words.TheVariants.{Gen, Run, Steps, Types};

/// What a list of words means.
#[derive(Clone, Copy, PartialEq, Eq)]
pub enum Words {
    /// `steps`: reads a script from the source, runs it on one thread, prints the replies, and
    /// behind them the documents where these are asked for.
    Steps {
        documents: bool,
    },
    /// `types`: reads a text of node types from the source, prints its canonical form.
    Types,
    /// `run`: reads a script from the source, runs it by so many worker threads, 1 to 16, prints
    /// the replies, and behind them the documents where these are asked for.
    Run {
        workers: u32,
        documents: bool,
    },
    /// `gen`: makes a script from a seed for so many sessions, 1 to 64, and prints it; or runs it
    /// on one thread and prints one line that counts what came of it. The source isn't read.
    Gen {
        seed: u64,
        sessions: u32,
        runs: bool,
    },
}

/// The command of a row.
#[derive(Clone, Copy, PartialEq, Eq)]
pub enum Verb {
    Steps,
    Types,
    Run,
    Gen,
}

/// What an option takes.
#[derive(Clone, Copy)]
pub enum Takes {
    /// Nothing: the option is a flag.
    Nothing,
    /// A number in this range.
    Number { least: u64, most: u64 },
}

/// An option of a command.
#[derive(Clone, Copy)]
pub struct WordOption<'t> {
    pub name: &'t str,
    pub takes: Takes,
    pub required: bool,
}

/// A row of a table of words: the word of a command, the command and its options.
#[derive(Clone, Copy)]
pub struct Row<'t> {
    pub command: &'t str,
    pub verb: Verb,
    pub options: &'t [WordOption<'t>],
}

/// How an option is given.
#[derive(Clone, Copy, PartialEq, Eq)]
pub enum Given {
    Flag,
    Number(u64),
}

// The option at the head of a list of words, how it is given, and the words behind it.
#[derive(Clone, Copy)]
struct FirstGiven<'w> {
    name: &'w str,
    given: Given,
    rest: &'w [String],
}

const ROWS: [Row; 4] = [
    Row {
        command: "steps",
        verb: Verb::Steps,
        options: &[WordOption {
            name: "documents",
            takes: Takes::Nothing,
            required: false,
        }],
    },
    Row {
        command: "types",
        verb: Verb::Types,
        options: &[],
    },
    Row {
        command: "run",
        verb: Verb::Run,
        options: &[
            WordOption {
                name: "workers",
                takes: Takes::Number { least: 1, most: 16 },
                required: true,
            },
            WordOption {
                name: "documents",
                takes: Takes::Nothing,
                required: false,
            },
        ],
    },
    Row {
        command: "gen",
        verb: Verb::Gen,
        options: &[
            WordOption {
                name: "seed",
                takes: Takes::Number {
                    least: 0,
                    most: u64::MAX,
                },
                required: true,
            },
            WordOption {
                name: "sessions",
                takes: Takes::Number { least: 1, most: 64 },
                required: true,
            },
            WordOption {
                name: "run",
                takes: Takes::Nothing,
                required: false,
            },
        ],
    },
];

/// The meaning of a list of words, where it has one.
pub fn words_meant(words: &[String]) -> Option<Words>
    ensures { MatchOption result
        ((meaning : _) → ¬ WordsMean (map string_bytes words.now) meaning)
        (WordsMean (map string_bytes words.now)) }
{
    let row = row_meant(&ROWS, words)?;
    Some(meaning_of(row, &words[1..]))
}

// What a command means with the options that words give it.
fn meaning_of(row: &Row, words: &[String]) -> Words
    requires row { table_row row.now ≡ verb_row row.now.verb }
    requires given { SpellOptions (map row_option row.now.options.now)
        (map string_bytes words.now) }
    ensures { (given : List (List ℕ × Given))
        → AreGiven (map row_option row.now.options.now) given (map string_bytes words.now)
        → MakesMeaning row.now.verb given result }
{
    match row.verb {
        Verb::Steps => Words::Steps {
            documents: option_given(row.options, words, "documents").is_some(),
        },
        Verb::Types => Words::Types,
        Verb::Run => Words::Run {
            workers: number_given(row.options, words, "workers") as u32,
            documents: option_given(row.options, words, "documents").is_some(),
        },
        Verb::Gen => Words::Gen {
            seed: number_given(row.options, words, "seed"),
            sessions: number_given(row.options, words, "sessions") as u32,
            runs: option_given(row.options, words, "run").is_some(),
        },
    }
}

// The number that words give a required option.
fn number_given(options: &[WordOption], words: &[String], name: &str) -> u64
    requires given { SpellOptions (map row_option options.now) (map string_bytes words.now) }
    requires number { IsRequiredNumber (map row_option options.now) name.now }
    ensures { (given : List (List ℕ × Given))
        → AreGiven (map row_option options.now) given (map string_bytes words.now)
        → GivesNumber given name.now result }
{
    match option_given(options, words, name) {
        Some(Given::Number(number)) => number,
        Some(Given::Flag) => unreachable!(),
        None => unreachable!(),
    }
}

/// The words that mean to run a script by its schedule are `steps`, and `--documents` where the
/// documents are asked for.
pub fn meaning_of_steps()
    ensures { (words : List (List ℕ)) (documents : Bool) →
        WordsMean words (Steps documents) ↔ (words ≡ codes "steps" ∷ documents_words documents) }
{}

/// The word `types` alone means to print node types.
pub fn meaning_of_types()
    ensures { (words : List (List ℕ)) → WordsMean words Types ↔ (words ≡ codes "types" ∷ []) }
{}

/// The words that mean to run a script by workers are `run` and their number, 1 to 16, as one word
/// or two, and `--documents` before it or behind it where the documents are asked for.
pub fn meaning_of_run()
    ensures { (words : List (List ℕ)) (workers : ℕ) (documents : Bool) →
        WordsMean words (Run workers documents) ↔ AreRunWords words workers documents }
{}

/// The words that mean to make a script are `gen`, the seed, any number below 2^64, and the number
/// of sessions, 1 to 64, each as one word or two, and `--run` where it is to be run; the options in
/// any order.
pub fn meaning_of_gen()
    ensures { (words : List (List ℕ)) (seed sessions : ℕ) (runs : Bool) →
        WordsMean words (Gen seed sessions runs) ↔ AreGenWords words seed sessions runs }
{}

/// The row of a table that a list of words spells.
pub fn row_meant<'t>(table: &'t [Row<'t>], words: &[String]) -> Option<&'t Row<'t>>
    ensures { MatchOption result
        ((row : TableRow) (given : List (List ℕ × Given))
        → ¬ IsRow (map table_row table.now) row given (map string_bytes words.now))
        (λ row. (given : List (List ℕ × Given))
        × IsRow (map table_row table.now) (table_row row.now) given
        (map string_bytes words.now)) }
{
    let [command, rest @ ..] = words else {
        return None;
    };
    let row = row_named(table, command.as_str())?;
    if spells(row.options, rest) {
        Some(row)
    } else {
        None
    }
}

// The row of a command.
fn row_named<'t>(table: &'t [Row<'t>], command: &str) -> Option<&'t Row<'t>>
    ensures { option_copied result ≡ find (λ r. bytes_eq r.command.now command.now) table.now }
{
    table.iter().find(|row| row.command == command)
}

/// How words give an option of this name, where they do.
pub fn option_given(options: &[WordOption], words: &[String], name: &str) -> Option<Given>
    ensures { (given : List (List ℕ × Given))
        → AreGiven (map row_option options.now) given (map string_bytes words.now)
        → result ≡ lookup (bytes_eq name.now) given }
{
    let first = first_given(options, words)?;
    if name == first.name {
        Some(first.given)
    } else {
        option_given(options, first.rest, name)
    }
}

// Words are options, one after the other, and none twice.
fn are_given(options: &[WordOption], words: &[String]) -> bool
    ensures { IsTrue result
        ↔ ((given : List (List ℕ × Given))
        × AreGiven (map row_option options.now) given (map string_bytes words.now)
        × IsDistinct bytes_eq (keys_of given)) }
{
    if words.is_empty() {
        return true;
    }
    let Some(first) = first_given(options, words) else {
        return false;
    };
    if option_given(options, first.rest, first.name).is_some() {
        return false;
    }
    are_given(options, first.rest)
}

// Words spell options.
fn spells(options: &[WordOption], words: &[String]) -> bool
    ensures { IsTrue result
        ↔ ((given : List (List ℕ × Given))
        × AreOptions (map row_option options.now) given (map string_bytes words.now)) }
{
    if !are_given(options, words) {
        return false;
    }
    for option in options {
        if !is_met(option, options, words) {
            return false;
        }
    }
    true
}

// An option that is required is given.
fn is_met(option: &WordOption, options: &[WordOption], words: &[String]) -> bool
    ensures { (given : List (List ℕ × Given))
        → AreGiven (map row_option options.now) given (map string_bytes words.now)
        → IsTrue result ↔
        (IsTrue option.now.required → IsSome (lookup (bytes_eq option.now.name.now) given)) }
{
    !option.required || option_given(options, words, option.name).is_some()
}

// The option with which words begin.
fn first_given<'w>(options: &[WordOption], words: &'w [String]) -> Option<FirstGiven<'w>>
    ensures { MatchOption result
        ((name : List ℕ) (given : Given) (rest : List (List ℕ))
        → IsOption (map row_option options.now) name given
        → ¬ Begins name given (map string_bytes words.now) rest)
        (λ r. IsOption (map row_option options.now) r.name.now r.given
        × Begins r.name.now r.given (map string_bytes words.now)
        (map string_bytes r.rest.now)) }
{
    let [word, behind @ ..] = words else {
        return None;
    };
    let (name, value) = named(word.as_str())?;
    let option = option_named(options, name)?;
    let (given, rest) = how_given(option.takes, value, behind)?;
    Some(FirstGiven { name, given, rest })
}

// How an option is given by the value in its word and by the words behind it, and the rest of
// these.
fn how_given<'w>(
    takes: Takes,
    value: Option<&str>,
    words: &'w [String],
) -> Option<(Given, &'w [String])>
    ensures { MatchOption result
        ((given : Given) (rest : List (List ℕ)) → FitsOption takes given
        → ¬ IsGivenBy given (option_map (λ v. v.now) value.entry)
        (map string_bytes words.now) rest)
        (λ r. FitsOption takes r.0
        × IsGivenBy r.0 (option_map (λ v. v.now) value.entry) (map string_bytes words.now)
        (map string_bytes r.1.now)) }
{
    match (takes, value) {
        (Takes::Nothing, None) => Some((Given::Flag, words)),
        (Takes::Nothing, Some(_)) => None,
        (Takes::Number { least, most }, Some(digits)) => {
            let number = number_within(least, most, digits)?;
            Some((Given::Number(number), words))
        }
        (Takes::Number { least, most }, None) => {
            let [digits, rest @ ..] = words else {
                return None;
            };
            let number = number_within(least, most, digits.as_str())?;
            Some((Given::Number(number), rest))
        }
    }
}

// The option of a name.
fn option_named<'t>(options: &'t [WordOption<'t>], name: &str) -> Option<&'t WordOption<'t>>
    ensures { option_copied result ≡ find (λ o. bytes_eq o.name.now name.now) options.now }
{
    options.iter().find(|option| option.name == name)
}

// The name of the option whose word this is, and the value in it.
fn named(word: &str) -> Option<(&str, Option<&str>)>
    ensures { MatchOption result
        ((name : List ℕ) (value : Option (List ℕ)) → word.now ≢ option_word name value)
        (λ r. HasNoEquals r.0.now
        × (word.now ≡ option_word r.0.now (option_map (λ v. v.now) r.1))) }
{
    Some(at_equals(behind_dash(behind_dash(word)?)?))
}

// What stands in front of the first `=` of a text, and what behind it.
fn at_equals(text: &str) -> (&str, Option<&str>)
    ensures plain { HasNoEquals result.0.now }
    ensures parts { MatchOption result.1 (text.now ≡ result.0.now)
        (λ value. text.now ≡ result.0.now ++ (61 ∷ value.now)) }
{
    match text.split_once('=') {
        Some((name, value)) => (name, Some(value)),
        None => (text, None),
    }
}

// What stands behind the dash with which a text begins.
fn behind_dash(text: &str) -> Option<&str>
    ensures { MatchOption result ((more : List ℕ) → text.now ≢ 45 ∷ more)
        (λ behind. text.now ≡ 45 ∷ behind.now) }
{
    text.strip_prefix('-')
}

// The number that digits spell, where it is in the range.
fn number_within(least: u64, most: u64, digits: &str) -> Option<u64>
    ensures { MatchOption result ((n : ℕ) → IsNumber digits.now n → least ≤ n → ¬ (n ≤ most))
        (λ n. IsNumber digits.now n × (least ≤ n) × (n ≤ most)) }
{
    if digits.len() > 20 || digits.as_bytes().first() == Some(&b'+') {
        return None;
    }
    let number = digits.parse().ok()?;
    if number < least || most < number {
        None
    } else {
        Some(number)
    }
}
