// How paths are read, within their limits or beyond.
ghost use Rattle.std.specs.Prelude.{◌≡◌, ◌≢◌, [], ◌∷◌, ℕ, List, IfErr, IfOk, MatchOption, MatchResult, length};
ghost use Rattle.jr_path.specs.Grammar.{IsFirstFault};
ghost use Rattle.jr_path.specs.Paths.{HasDepth, IsPath, IsPathText, Measures, RefusesText};

use crate::name::check_name;
use crate::{DeepCopy, Name, Path, PathFault};
use std::alloc::{AllocError, Global};

/// The most names that a path within the limits has.
pub const MAX_PATH_NAMES: usize = 64;

/// The most bytes that the text of a path within the limits has.
pub const MAX_PATH_BYTES: usize = 1024;

/// What a text in the grammar of paths is: a path within the limits, or the first limit that it passes.
#[derive(Drop, PartialEq, Eq)]
pub enum PathText {
    /// A path of at most 64 names, whose text has at most 1,024 bytes.
    Within(Path),
    /// A path has this many names, more than 64.
    TooDeep(usize),
    /// A path's text has this many bytes, more than 1,024, in at most 64 names.
    TooLong(usize),
}

impl PathText {
    /// Reads the text of a path: `/`, or names each after a `/`. A text that is no path is `BadPath`, with
    /// the offset of the first byte that no path's text has there, or the text's length.
    pub fn read(alloc: Global, text: &str) -> Result<PathText, PathFault>
        ensures path { IfOk result (Measures text.now) }
        ensures fault { IfErr result (RefusesText text.now) }
    {
        let depth = match depth_of(text) {
            Ok(depth) => depth,
            Err(offset) => return Err(PathFault::BadPath(offset)),
        };
        if depth > MAX_PATH_NAMES {
            return Ok(PathText::TooDeep(depth));
        }
        let bytes = text.len();
        if bytes > MAX_PATH_BYTES {
            return Ok(PathText::TooLong(bytes));
        }
        Ok(PathText::Within(path_of(alloc, text)?))
    }
}

// The path of a text, however long, or where the text's first fault is.
pub(crate) fn read_unlimited(alloc: Global, text: &str) -> Result<Path, PathFault>
    ensures path { IfOk result (IsPath text.now) }
    ensures fault { IfErr result (RefusesText text.now) }
{
    if let Err(offset) = depth_of(text) {
        return Err(PathFault::BadPath(offset));
    }
    Ok(path_of(alloc, text)?)
}

impl DeepCopy for PathText {
    fn copy(&self) -> Result<PathText, AllocError> {
        match self {
            PathText::Within(path) => Ok(PathText::Within(path.copy()?)),
            PathText::TooDeep(depth) => Ok(PathText::TooDeep(*depth)),
            PathText::TooLong(bytes) => Ok(PathText::TooLong(*bytes)),
        }
    }
}

// How many names the path of a text has; else where the text's first fault is.
fn depth_of(text: &str) -> Result<usize, usize>
    ensures { MatchResult result (HasDepth text.now) (IsFirstFault IsPathText text.now) }
{
    if text == "/" {
        return Ok(0);
    }
    match behind_slash(text) {
        Some(behind) => depth_behind(behind),
        None => Err(0),
    }
}

// The same of a text that is a slash and more, by what stands behind the slash.
fn depth_behind(behind: &str) -> Result<usize, usize>
    requires { behind.now ≢ [] }
    ensures { MatchResult result (HasDepth (47 ∷ behind.now)) (IsFirstFault IsPathText (47 ∷ behind.now)) }
{
    let mut depth = 0;
    // Where the slash before the name stands.
    let mut start = 0;
    for name in behind.split('/') {
        if let Err(offset) = check_name(name) {
            return Err(start + 1 + offset);
        }
        depth += 1;
        start += 1 + name.len();
    }
    Ok(depth)
}

// The path of a text in the grammar.
fn path_of(alloc: Global, text: &str) -> Result<Path, AllocError>
    requires { IsPathText text.now }
    ensures { IfOk result (IsPath text.now) }
{
    let root = Path::root(alloc);
    if text == "/" {
        return Ok(root);
    }
    match behind_slash(text) {
        Some(behind) => path_behind(alloc, root, behind),
        None => Ok(root),
    }
}

// The path with the names that stand behind a slash.
fn path_behind(alloc: Global, root: Path, behind: &str) -> Result<Path, AllocError>
    requires root { root ≡ [] }
    requires path { IsPathText (47 ∷ behind.now) }
    requires more { behind.now ≢ [] }
    ensures { IfOk result (IsPath (47 ∷ behind.now)) }
{
    let mut path = root;
    for name in behind.split('/') {
        path.push(Name::of(alloc, name)?)?;
    }
    Ok(path)
}

// What stands behind the slash that a text begins with.
fn behind_slash(text: &str) -> Option<&str>
    ensures { MatchOption result ((more : List ℕ) → text.now ≢ 47 ∷ more) (λ behind. text.now ≡ 47 ∷ behind.now) }
{
    text.strip_prefix('/')
}
