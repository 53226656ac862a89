// The names of commands, and the arguments that stand behind each.
ghost use Rattle.std.specs.Prelude.{◌≡◌};
ghost use Rattle.serde_json.specs.View.{view, items_view};
ghost use Rattle.jr_args.specs.Commands.{bare_command, name_command, node_command, path_command, text_command};
ghost use Rattle.jr_args.specs.Words.{fit_kinds, has_kind, is_optional, kinds_of, mask_of, word_named, word_text};

use crate::tree::is_tree;
use jcr_trans::Command;
use jr_path::{Name, Path, Text};
use serde_json::Value as Json;

// Commands of this form: no argument.
#[derive(Clone, Copy)]
pub enum Bare {
    Save,
    Head,
    Events,
    BackWrite,
    BackRead,
    Sweep,
    Collect,
    Checkpoint,
    Detach,
}

// Commands of this form: a path.
#[derive(Clone, Copy)]
pub enum OnPath {
    Remove,
    Get,
    List,
    Props,
    Id,
    Refs,
    Unlock,
    Checkin,
    Checkout,
    Versions,
    Split,
}

// Commands of this form: a text.
#[derive(Clone, Copy)]
pub enum OnText {
    ById,
    Token,
    DropToken,
    Attach,
    Release,
}

// Commands of this form: a path and a name.
#[derive(Clone, Copy)]
pub enum OnName {
    Unset,
    Mixin,
    Unmixin,
    SetType,
    Unlabel,
}

// Commands of this form: a number.
#[derive(Clone, Copy)]
pub enum OnNode {
    Stop,
    Recover,
}

// The name of a command, by the arguments that it takes.
#[derive(Clone, Copy)]
pub enum Word {
    // No argument.
    Bare(Bare),
    // A path.
    OnPath(OnPath),
    // A text.
    OnText(OnText),
    // A path and a name.
    OnName(OnName),
    // A number.
    OnNode(OnNode),
    Add,
    Tree,
    Set,
    Move,
    Refresh,
    Lock,
    Restore,
    Label,
    Observe,
    Query,
    OrderBefore,
}

// What an argument is.
#[derive(Clone, Copy)]
pub enum Kind {
    Path,
    Name,
    OptionalName,
    NameOrNull,
    Text,
    Truth,
    Number,
    Mask,
    Value,
    Tree,
    OptionalVariables,
}

const ALL_WORDS: [Word; 43] = [
    Word::Bare(Bare::Save),
    Word::Bare(Bare::Head),
    Word::Bare(Bare::Events),
    Word::Bare(Bare::BackWrite),
    Word::Bare(Bare::BackRead),
    Word::Bare(Bare::Sweep),
    Word::Bare(Bare::Collect),
    Word::Bare(Bare::Checkpoint),
    Word::Bare(Bare::Detach),
    Word::OnPath(OnPath::Remove),
    Word::OnPath(OnPath::Get),
    Word::OnPath(OnPath::List),
    Word::OnPath(OnPath::Props),
    Word::OnPath(OnPath::Id),
    Word::OnPath(OnPath::Refs),
    Word::OnPath(OnPath::Unlock),
    Word::OnPath(OnPath::Checkin),
    Word::OnPath(OnPath::Checkout),
    Word::OnPath(OnPath::Versions),
    Word::OnPath(OnPath::Split),
    Word::OnText(OnText::ById),
    Word::OnText(OnText::Token),
    Word::OnText(OnText::DropToken),
    Word::OnText(OnText::Attach),
    Word::OnText(OnText::Release),
    Word::OnName(OnName::Unset),
    Word::OnName(OnName::Mixin),
    Word::OnName(OnName::Unmixin),
    Word::OnName(OnName::SetType),
    Word::OnName(OnName::Unlabel),
    Word::OnNode(OnNode::Stop),
    Word::OnNode(OnNode::Recover),
    Word::Add,
    Word::Tree,
    Word::Set,
    Word::Move,
    Word::Refresh,
    Word::Lock,
    Word::Restore,
    Word::Label,
    Word::Observe,
    Word::Query,
    Word::OrderBefore,
];

// The word that is written so.
pub fn word_named(text: &str) -> Option<Word>
    ensures { result ≡ word_named text.now }
{
    ALL_WORDS.iter().copied().find(|word| word.as_str() == text)
}

impl Word {
    fn as_str(self) -> &'static str
        ensures { result.now ≡ word_text self }
    {
        match self {
            Word::Bare(Bare::Save) => "save",
            Word::Bare(Bare::Head) => "head",
            Word::Bare(Bare::Events) => "events",
            Word::Bare(Bare::BackWrite) => "backWrite",
            Word::Bare(Bare::BackRead) => "backRead",
            Word::Bare(Bare::Sweep) => "sweep",
            Word::Bare(Bare::Collect) => "collect",
            Word::Bare(Bare::Checkpoint) => "checkpoint",
            Word::Bare(Bare::Detach) => "detach",
            Word::OnPath(OnPath::Remove) => "remove",
            Word::OnPath(OnPath::Get) => "get",
            Word::OnPath(OnPath::List) => "list",
            Word::OnPath(OnPath::Props) => "props",
            Word::OnPath(OnPath::Id) => "id",
            Word::OnPath(OnPath::Refs) => "refs",
            Word::OnPath(OnPath::Unlock) => "unlock",
            Word::OnPath(OnPath::Checkin) => "checkin",
            Word::OnPath(OnPath::Checkout) => "checkout",
            Word::OnPath(OnPath::Versions) => "versions",
            Word::OnPath(OnPath::Split) => "split",
            Word::OnText(OnText::ById) => "byId",
            Word::OnText(OnText::Token) => "token",
            Word::OnText(OnText::DropToken) => "dropToken",
            Word::OnText(OnText::Attach) => "attach",
            Word::OnText(OnText::Release) => "release",
            Word::OnName(OnName::Unset) => "unset",
            Word::OnName(OnName::Mixin) => "mixin",
            Word::OnName(OnName::Unmixin) => "unmixin",
            Word::OnName(OnName::SetType) => "type",
            Word::OnName(OnName::Unlabel) => "unlabel",
            Word::OnNode(OnNode::Stop) => "stop",
            Word::OnNode(OnNode::Recover) => "recover",
            Word::Add => "add",
            Word::Tree => "tree",
            Word::Set => "set",
            Word::Move => "move",
            Word::Refresh => "refresh",
            Word::Lock => "lock",
            Word::Restore => "restore",
            Word::Label => "label",
            Word::Observe => "observe",
            Word::Query => "query",
            Word::OrderBefore => "orderBefore",
        }
    }

    // Its arguments, in order.
    pub fn kinds(self) -> &'static [Kind]
        ensures { result.now ≡ kinds_of self }
    {
        match self {
            Word::Bare(_) => &[],
            Word::OnPath(_) => &[Kind::Path],
            Word::OnText(_) => &[Kind::Text],
            Word::OnName(_) => &[Kind::Path, Kind::Name],
            Word::OnNode(_) => &[Kind::Number],
            Word::Add => &[Kind::Path, Kind::OptionalName],
            Word::Tree => &[Kind::Path, Kind::Tree],
            Word::Set => &[Kind::Path, Kind::Name, Kind::Value],
            Word::Move => &[Kind::Path, Kind::Path],
            Word::Refresh => &[Kind::Truth],
            Word::Lock => &[Kind::Path, Kind::Truth],
            Word::Restore => &[Kind::Path, Kind::Text],
            Word::Label => &[Kind::Path, Kind::Text, Kind::Name, Kind::Truth],
            Word::Observe => &[Kind::Path, Kind::Truth, Kind::Mask],
            Word::Query => &[Kind::Text, Kind::OptionalVariables],
            Word::OrderBefore => &[Kind::Path, Kind::NameOrNull],
        }
    }
}

impl Bare {
    pub fn command(self) -> Command
        ensures { result ≡ bare_command self }
    {
        match self {
            Bare::Save => Command::Save,
            Bare::Head => Command::Head,
            Bare::Events => Command::Events,
            Bare::BackWrite => Command::BackWrite,
            Bare::BackRead => Command::BackRead,
            Bare::Sweep => Command::Sweep,
            Bare::Collect => Command::Collect,
            Bare::Checkpoint => Command::Checkpoint,
            Bare::Detach => Command::Detach,
        }
    }
}

impl OnPath {
    pub fn command(self, path: Path) -> Command
        ensures { result ≡ path_command self path }
    {
        match self {
            OnPath::Remove => Command::Remove(path),
            OnPath::Get => Command::Get(path),
            OnPath::List => Command::List(path),
            OnPath::Props => Command::Props(path),
            OnPath::Id => Command::Id(path),
            OnPath::Refs => Command::Refs(path),
            OnPath::Unlock => Command::Unlock(path),
            OnPath::Checkin => Command::Checkin(path),
            OnPath::Checkout => Command::Checkout(path),
            OnPath::Versions => Command::Versions(path),
            OnPath::Split => Command::Split(path),
        }
    }
}

impl OnText {
    pub fn command(self, text: Text) -> Command
        ensures { result ≡ text_command self text }
    {
        match self {
            OnText::ById => Command::ById(text),
            OnText::Token => Command::Token(text),
            OnText::DropToken => Command::DropToken(text),
            OnText::Attach => Command::Attach(text),
            OnText::Release => Command::Release(text),
        }
    }
}

impl OnName {
    pub fn command(self, path: Path, name: Name) -> Command
        ensures { result ≡ name_command self path name }
    {
        match self {
            OnName::Unset => Command::Unset(path, name),
            OnName::Mixin => Command::Mixin(path, name),
            OnName::Unmixin => Command::Unmixin(path, name),
            OnName::SetType => Command::SetType(path, name),
            OnName::Unlabel => Command::Unlabel(path, name),
        }
    }
}

impl OnNode {
    pub fn command(self, number: Option<u64>) -> Command
        ensures { result ≡ node_command self number }
    {
        match self {
            OnNode::Stop => Command::Stop(number),
            OnNode::Recover => Command::Recover(number),
        }
    }
}

impl Kind {
    // Whether the JSON is of the kind that the argument needs.
    fn has(self, json: &Json) -> bool
        ensures { result ≡ has_kind self (view json.now) }
    {
        match self {
            Kind::Path | Kind::Name | Kind::OptionalName | Kind::Text => json.is_string(),
            Kind::NameOrNull => json.is_string() || json.is_null(),
            Kind::Truth => json.is_boolean(),
            Kind::Number => json.is_number(),
            Kind::Mask => mask(json).is_some(),
            Kind::Value => true,
            Kind::Tree => is_tree(json),
            Kind::OptionalVariables => json.is_object(),
        }
    }

    fn is_optional(self) -> bool
        ensures { result ≡ is_optional self }
    {
        matches!(self, Kind::OptionalName | Kind::OptionalVariables)
    }
}

// The mask that the JSON is: a whole number from 0 to 127.
pub fn mask(json: &Json) -> Option<u32>
    ensures { result ≡ mask_of (view json.now) }
{
    match json.as_u64() {
        Some(number) => {
            if number <= 127 {
                Some(number as u32)
            } else {
                None
            }
        }
        None => None,
    }
}

// Whether there are as many arguments as kinds, each of its kind; optional ones may be left out at the end.
pub fn fits(kinds: &[Kind], arguments: &[Json]) -> bool
    ensures { result ≡ fit_kinds kinds.now (items_view arguments.now) }
{
    match kinds {
        [] => arguments.is_empty(),
        [kind, kinds @ ..] => match arguments {
            [] => kind.is_optional() && fits(kinds, arguments),
            [first, rest @ ..] => kind.has(first) && fits(kinds, rest),
        },
    }
}
