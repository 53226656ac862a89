// The heads of the cluster nodes.
ghost use Rattle.std.specs.Prelude.{◌≡◌, ◌≤◌, ◌↔◌, IsTrue, is_some, reverse};
ghost use Rattle.std.specs.Option.{option_map_or};
ghost use Rattle.jr_rev.specs.Vectors.{entry};
ghost use Rattle.oak_machine.specs.Runs.{IsNode, learned};
ghost use Rattle.oak_machine.specs.History.{begin_at, begin_of, history_of};
ghost use Rattle.oak_machine.specs.Heads.{below_flying, greater_of, greatest_time, head_of, is_below_flying, is_flying, last_draw_time, last_in, local, local_head, drawn_next, published};

use crate::past::is_in_flight;
use jr_rev::{RevVec, Revision};
use oak_machine::{Event, Journal};

/// The greatest revision that a cluster node drew below every one of it in flight (Oak,
/// DocumentNodeStore: Revisions); none where it drew none such. It goes over the whole journal.
#[tactic(auto, using(crate::proofs::LocalHead::head_is_local))]
pub fn local_head(journal: &Journal, cluster: u32) -> Option<Revision>
    ensures { let h = history_of journal.now in result ≡ local_head h.begin h.past cluster }
{
    let events = journal.events.as_slice();
    if has_head(journal, events, cluster) {
        Some(local(journal, events, cluster))
    } else {
        None
    }
}

// Whether a cluster node drew a revision below every one of it in flight.
#[tactic(auto, using(oak_machine::proofs::Forward::past_more))]
fn has_head(journal: &Journal, events: &[Event], cluster: u32) -> bool
    ensures { result ≡ is_some (local_head journal.now.start (reverse events.now) cluster) }
{
    let mut found = false;
    for event in events {
        if let Event::Draw(d) = event {
            if d.revision.cluster == cluster && is_below_flying(events, d.revision, cluster) {
                found = true;
            }
        }
    }
    found
}

// What a cluster node begins from: its entry in the vector at the start, or its start.
fn begin_of(journal: &Journal, cluster: u32) -> Revision
    ensures is { result ≡ begin_of journal.now.start cluster }
    ensures own { result.cluster ≡ cluster }
{
    let mut own = Revision {
        time: 0,
        counter: 0,
        cluster,
    };
    if let Some(start) = &journal.start {
        if let Some(entry) = start.at.get(cluster) {
            own.time = entry.time;
            own.counter = entry.counter;
        }
    }
    own
}

/// The greatest revision that a cluster node drew below every one of it in flight, or what it begins from (Oak,
/// DocumentNodeStore: Revisions). It goes over all the events, which are of the journal.
pub fn local(journal: &Journal, events: &[Event], cluster: u32) -> Revision
    ensures greatest { result ≡ local journal.now.start (reverse events.now) cluster }
    ensures own { result.cluster ≡ cluster }
{
    let mut local = begin_of(journal, cluster);
    for at in (0..events.len()).rev() {
        if let Event::Draw(d) = &events[at] {
            if d.revision.cluster == cluster && is_below_flying(events, d.revision, cluster) {
                local = greater_of(local, d.revision);
            }
        }
    }
    local
}

// Whether some revision of a cluster node is in flight.
#[tactic(auto, using(oak_machine::proofs::Forward::past_more))]
pub(crate) fn is_flying(events: &[Event], cluster: u32) -> bool
    ensures { result ≡ is_flying (reverse events.now) cluster }
{
    let mut flying = false;
    for event in events {
        if let Event::Draw(d) = event {
            if d.revision.cluster == cluster && is_in_flight(events, d.revision) {
                flying = true;
            }
        }
    }
    flying
}

// Whether a revision is below every one of a cluster node that is in flight.
#[tactic(auto, using(oak_machine::proofs::Forward::past_more))]
fn is_below_flying(events: &[Event], r: Revision, cluster: u32) -> bool
    ensures { result ≡ is_below_flying (reverse events.now) cluster r }
{
    let mut below = true;
    for event in events {
        if let Event::Draw(d) = event {
            if d.revision.cluster == cluster
                && is_in_flight(events, d.revision)
                && r >= d.revision
            {
                below = false;
            }
        }
    }
    below
}

fn greater_of(a: Revision, b: Revision) -> Revision
    ensures { result ≡ greater_of a b }
{
    if a < b { b } else { a }
}

/// The greatest revision that a cluster node has published, or what it begins from (Oak, Background Operations). It goes
/// over all the events, which are of the journal.
pub fn published(journal: &Journal, events: &[Event], cluster: u32) -> Revision
    ensures { result ≡ published journal.now.start (reverse events.now) cluster }
{
    let mut published = begin_of(journal, cluster);
    for at in (0..events.len()).rev() {
        if let Event::Out(of, r) = &events[at] {
            if *of == cluster {
                published = greater_of(published, *r);
            }
        }
    }
    published
}

// The vector at the start.
fn begin_at(journal: &Journal) -> RevVec
    requires some { 1 ≤ journal.now.clusters }
    requires eight { journal.now.clusters ≤ 8 }
    ensures { result ≡ begin_at journal.now.clusters journal.now.start }
{
    match &journal.start {
        Some(start) => start.at,
        None => RevVec::start(journal.clusters),
    }
}

// What a cluster node has learned last, or the vector at the start.
#[tactic(auto, using(oak_machine::proofs::Forward::past_more))]
fn last_in(journal: &Journal, events: &[Event], cluster: u32) -> RevVec
    requires some { 1 ≤ journal.now.clusters }
    requires eight { journal.now.clusters ≤ 8 }
    ensures { result ≡ last_in journal.now.clusters journal.now.start (reverse events.now) cluster }
{
    let mut last = begin_at(journal);
    for event in events {
        if let Event::In(of, vector) = event {
            if *of == cluster {
                last = *vector;
            }
        }
    }
    last
}

// The head of a cluster node.
pub(crate) fn head_of(journal: &Journal, events: &[Event], cluster: u32) -> RevVec
    requires eight { journal.now.clusters ≤ 8 }
    requires node { IsNode journal.now.clusters cluster }
    ensures { result ≡ head_of journal.now.clusters journal.now.start (reverse events.now) cluster }
{
    let mut head = last_in(journal, events, cluster);
    head.set(local(journal, events, cluster));
    head
}

// The head of a cluster node, with the entries of the others raised to what they had published earlier.
#[tactic(auto, using(oak_machine::proofs::Ranges::range_more))]
pub(crate) fn learned(journal: &Journal, now: &[Event], earlier: &[Event], cluster: u32) -> RevVec
    requires eight { journal.now.clusters ≤ 8 }
    requires node { IsNode journal.now.clusters cluster }
    ensures { result ≡ learned journal.now.clusters journal.now.start (reverse now.now) (reverse earlier.now) cluster }
{
    let mut vector = head_of(journal, now, cluster);
    for other in 1..journal.clusters + 1 {
        if other != cluster {
            vector.raise(published(journal, earlier, other));
        }
    }
    vector
}

// The time of the last draw of a cluster node.
#[tactic(auto, using(oak_machine::proofs::Forward::past_more))]
fn last_draw_time(events: &[Event], cluster: u32) -> u64
    ensures { result ≡ last_draw_time (reverse events.now) cluster }
{
    let mut time = 0;
    for event in events {
        if let Event::Draw(draw) = event {
            if draw.revision.cluster == cluster {
                time = draw.revision.time;
            }
        }
    }
    time
}

// The greatest time in a vector.
#[tactic(auto, using(oak_machine::proofs::Ranges::range_more, oak_machine::proofs::Ranges::greater_number))]
fn greatest_time(vector: &RevVec) -> u64
    ensures { result ≡ greatest_time vector.now }
{
    let mut time = 0;
    for cluster in 1..9 {
        time = time.max(time_at(vector, cluster));
    }
    time
}

fn time_at(vector: &RevVec, cluster: u32) -> u64
    ensures { result ≡ option_map_or (λ r. r.time) (entry vector.now cluster) 0 }
{
    match vector.get(cluster) {
        Some(r) => r.time,
        None => 0,
    }
}

// Whether a revision is the one that its cluster node draws next.
pub(crate) fn is_next_draw(journal: &Journal, events: &[Event], r: Revision) -> bool
    requires eight { journal.now.clusters ≤ 8 }
    requires node { IsNode journal.now.clusters r.cluster }
    ensures { IsTrue result ↔ (r ≡ drawn_next journal.now.clusters journal.now.start (reverse events.now) r.cluster) }
{
    let head = head_of(journal, events, r.cluster);
    let known = greatest_time(&head).max(last_draw_time(events, r.cluster));
    r.counter == 0 && r.time > 0 && r.time - 1 == known
}
