// Events of commits. The commits are JSON: a list for each, in which a list for each change has a
// sign, a path, and a property's name where the change is of one: `+` is for what is added, `-` for
// what is removed, `~` for a property that is changed.
use crate::json::items;
use jcr_observe::{Filter, events, events_text};
use jr_path::{Item, List};
use jr_rev::Revision;
use jr_tree::{CommitChanges, ItemChange};
use rows::{Out, cut, items_of, json_of, short, text_at};
use serde_json::Value as Json;

// PATH `deep` MASK (another word for a shallow filter)
pub(crate) fn add(asked: &str, given: &str, out: &mut Out) {
    let json = json_of(given, out);
    match &json {
        Some(json) => add_asked(asked, items_of(json), out),
        None => out.put("no commits"),
    }
    drop(json);
}

fn add_asked(asked: &str, commits: Option<&[Json]>, out: &mut Out) {
    match (filter_of(asked, out), commits) {
        (Some(filter), Some(commits)) => put_events(&filter, commits, out),
        _ => out.put("no commits"),
    }
}

fn put_events(filter: &Filter, commits: &[Json], out: &mut Out) {
    let commits = commits_of(commits, out);
    match events(out.alloc, commits.as_slice(), filter) {
        Ok(events) => out.put_made(events_text(out.alloc, events.as_slice())),
        Err(_) => out.is_broken = true,
    }
}

fn filter_of(asked: &str, out: &mut Out) -> Option<Filter> {
    let (path, rest) = cut(asked);
    let (word, mask) = cut(rest);
    match out.path(path) {
        Some(path) => Some(Filter {
            path,
            deep: word == "deep",
            mask: short(mask),
        }),
        None => None,
    }
}

fn commits_of(commits: &[Json], out: &mut Out) -> List<CommitChanges> {
    let mut read = List::new(out.alloc);
    for changes in commits {
        let put = read.push(commit_of(changes_of(items(changes), out)));
        out.note(put);
    }
    read
}

fn commit_of(changes: List<ItemChange>) -> CommitChanges {
    CommitChanges {
        revision: Revision {
            time: 1,
            counter: 0,
            cluster: 1,
        },
        changes,
    }
}

fn changes_of(changes: &[Json], out: &mut Out) -> List<ItemChange> {
    let mut read = List::new(out.alloc);
    for change in changes {
        let put = read.push(change_of(items(change), out));
        out.note(put);
    }
    read
}

// A change without a name is of the node.
fn change_of(change: &[Json], out: &mut Out) -> ItemChange {
    let sign = text_at(change, 0);
    let path = out.path_or_root(text_at(change, 1));
    let name = out.name(text_at(change, 2));
    ItemChange {
        item: Item { path, name },
        before: sign != "+",
        after: sign != "-",
    }
}
