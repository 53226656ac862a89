// Which event may follow a journal, but for what the law lets start and say.
ghost use Rattle.std.specs.Prelude.{◌≡◌, ℕ, ◌≤◌, ◌↔◌, ◌||◌, IsFalse, IsTrue, Some, not, reverse, slice_get};
ghost use Rattle.jr_rev.specs.Vectors.{is_below};
ghost use Rattle.oak_machine.specs.Commits.{are_clashing, is_in_base};
ghost use Rattle.std.specs.List.{All};
ghost use Rattle.oak_machine.specs.History.{history_of};
ghost use Rattle.oak_machine.specs.Heads.{head_of};
ghost use Rattle.oak_machine.specs.Runs.{AreNodes, Follows, IsHeadFor, IsNode, IsOfNode, IsRunning, MayBound, MayCollect, MayCommit, MayDraw, MayFollow, MayLearn, MayLogin, MayRefresh, MayRefuse, any_said, any_start, is_skip, is_split_end};
ghost use Rattle.oak_machine.specs.Sessions.{base_of, has_left, has_login, is_attached, is_recovered, is_stopped, is_stopped_under, next_index};
ghost use Rattle.oak_machine.specs.Tests.{IsFreeBase, IsFreeBaseAmong, based_by, is_apart_among, is_below_kept_among};

use crate::heads::{head_of, is_flying, is_next_draw, learned, local, published};
use crate::meeting::{clashing, meets};
use crate::past::{is_in_base, is_in_flight, is_open, marks_of, was_live_beside};
use crate::sessions::{
    base_of, has_bound_since, has_left, has_login, has_reader, is_attached, is_drawing,
    is_recovered, is_stopped, kept_checkpoint, next_index,
};
use jr_path::Item;
use jr_rev::{RevVec, Revision};
use oak_doc::{Collected, SplitEnd};
use oak_machine::{Draw, Event, Journal};

/// Whether the machine lets an event follow a journal, whatever the law lets start and say: the journal
/// has one to eight cluster nodes, each session and the event are of one of them, and what the event
/// tells is so after the journal's events. It takes no memory, and goes over the journal again and again.
pub fn follows(journal: &Journal, event: &Event) -> bool
    ensures { IsTrue result ↔ Follows (history_of journal.now) event.now }
{
    are_nodes(journal) && is_of_node(journal.clusters, event) && may_follow(journal, event)
}

// Whether there are one to eight cluster nodes, and each session is of one.
fn are_nodes(journal: &Journal) -> bool
    ensures { IsTrue result ↔ AreNodes journal.now.clusters journal.now.sessions }
{
    if journal.clusters == 0 || journal.clusters > 8 {
        return false;
    }
    for node in journal.sessions.as_slice() {
        if !is_node(journal.clusters, *node) {
            return false;
        }
    }
    true
}

fn is_node(clusters: u32, cluster: u32) -> bool
    ensures { IsTrue result ↔ IsNode clusters cluster }
{
    cluster >= 1 && cluster <= clusters
}

// Whether the cluster node of which an event tells, if any, is one of them.
fn is_of_node(clusters: u32, event: &Event) -> bool
    ensures { IsTrue result ↔ IsOfNode clusters event.now }
{
    match event {
        Event::Head(cluster, _)
        | Event::Out(cluster, _)
        | Event::In(cluster, _)
        | Event::Sweep(cluster, _)
        | Event::Stop(cluster)
        | Event::Recover(cluster) => is_node(clusters, *cluster),
        _ => true,
    }
}

// Whether an event may follow, by its kind.
fn may_follow(journal: &Journal, event: &Event) -> bool
    requires nodes { AreNodes journal.now.clusters journal.now.sessions }
    requires of_node { IsOfNode journal.now.clusters event.now }
    ensures { IsTrue result ↔ MayFollow any_start any_said (history_of journal.now) event.now }
{
    let events = journal.events.as_slice();
    match event {
        Event::Login(session, v) => may_login(journal, *session, v),
        Event::Refresh(session, v) => may_refresh(journal, *session, v),
        Event::Draw(draw) => may_draw(journal, draw),
        Event::Commit(r) => may_commit(events, *r),
        Event::Refuse(r, item, other) => may_refuse(events, *r, item, *other),
        Event::End(r) => is_in_flight(events, *r),
        Event::Head(cluster, v) => may_head(journal, *cluster, v),
        Event::Out(cluster, r) => r.cluster == *cluster && *r <= local(journal, events, *cluster),
        Event::In(cluster, v) => may_take_in(journal, *cluster, v),
        Event::Sweep(cluster, r) => {
            r.cluster == *cluster && *r <= published(journal, events, *cluster)
        }
        Event::Bound(m, t) => may_bound(journal, m, t),
        Event::Checkpoint(_, v) => may_keep(journal, v),
        Event::Attach(session, id) => {
            kept_checkpoint(events, id).is_some()
                && !is_attached(events, *session)
                && is_running(journal.sessions.as_slice(), events, *session)
        }
        Event::Detach(session) => !is_attached(events, *session) && has_reader(events, *session),
        Event::Release(id) => kept_checkpoint(events, id).is_some(),
        Event::Split(session, _, end) => may_split(events, *session, end),
        Event::Collected(session, collected) => may_collect(events, *session, collected),
        Event::Went(session, _) => may_go(events, *session),
        Event::Said(session, index, _) => is_next_index(events, *session, *index),
        Event::Stop(cluster) => !is_stopped(events, *cluster),
        Event::Recover(cluster) => is_stopped(events, *cluster) && !is_flying(events, *cluster),
    }
}

// Whether two vectors are the same.
fn is_same(v: &RevVec, w: &RevVec) -> bool
    ensures { IsTrue result ↔ (v.now ≡ w.now) }
{
    v == w
}

// Whether a session is of a cluster node.
fn is_session_of(journal: &Journal, session: u32, cluster: u32) -> bool
    ensures { IsTrue result ↔ (slice_get journal.now.sessions session ≡ Some cluster) }
{
    match journal.sessions.as_slice().get(session as usize) {
        Some(node) => *node == cluster,
        None => false,
    }
}

// Whether a vector is the head of the cluster node of a session.
fn is_head_for(journal: &Journal, session: u32, v: &RevVec) -> bool
    requires { AreNodes journal.now.clusters journal.now.sessions }
    ensures { IsTrue result ↔ IsHeadFor (history_of journal.now) session v.now }
{
    match journal.sessions.as_slice().get(session as usize) {
        Some(node) => {
            let head = head_of(journal, journal.events.as_slice(), *node);
            is_same(v, &head)
        }
        None => false,
    }
}

// Whether the cluster node of a session wasn't stopped.
fn is_running(sessions: &[u32], events: &[Event], session: u32) -> bool
    ensures { IsTrue result ↔ IsFalse (is_stopped_under sessions.now (reverse events.now) session) }
{
    match sessions.get(session as usize) {
        Some(node) => !is_stopped(events, *node),
        None => true,
    }
}

// Whether a vector is the head of a cluster node that wasn't stopped.
fn may_head(journal: &Journal, cluster: u32, v: &RevVec) -> bool
    requires nodes { AreNodes journal.now.clusters journal.now.sessions }
    requires node { IsNode journal.now.clusters cluster }
    ensures { let h = history_of journal.now in IsTrue result
        ↔ (IsFalse (is_stopped h.past cluster) × (v.now ≡ head_of h.clusters h.begin h.past cluster)) }
{
    let events = journal.events.as_slice();
    !is_stopped(events, cluster) && is_same(v, &head_of(journal, events, cluster))
}

fn may_login(journal: &Journal, session: u32, v: &RevVec) -> bool
    requires { AreNodes journal.now.clusters journal.now.sessions }
    ensures { IsTrue result ↔ MayLogin (history_of journal.now) session v.now }
{
    let events = journal.events.as_slice();
    if !is_running(journal.sessions.as_slice(), events, session) {
        return false;
    }
    !has_login(events, session) && is_head_for(journal, session, v)
}

fn may_refresh(journal: &Journal, session: u32, v: &RevVec) -> bool
    requires { AreNodes journal.now.clusters journal.now.sessions }
    ensures { IsTrue result ↔ MayRefresh (history_of journal.now) session v.now }
{
    let events = journal.events.as_slice();
    if !is_running(journal.sessions.as_slice(), events, session) {
        return false;
    }
    has_login(events, session) && !is_drawing(events, session) && is_head_for(journal, session, v)
}

// Whether a vector is the base of a session.
fn has_base(events: &[Event], session: u32, v: &RevVec) -> bool
    ensures { IsTrue result ↔ (base_of (reverse events.now) session ≡ Some v.now) }
{
    match base_of(events, session) {
        Some(base) => is_same(&base, v),
        None => false,
    }
}

fn may_draw(journal: &Journal, draw: &Draw) -> bool
    requires { AreNodes journal.now.clusters journal.now.sessions }
    ensures { IsTrue result ↔ MayDraw any_start (history_of journal.now) draw.now }
{
    let events = journal.events.as_slice();
    if !is_session_of(journal, draw.session, draw.revision.cluster) {
        return false;
    }
    if !is_running(journal.sessions.as_slice(), events, draw.session) {
        return false;
    }
    has_login(events, draw.session)
        && !is_attached(events, draw.session)
        && !is_drawing(events, draw.session)
        && has_base(events, draw.session, &draw.base)
        && is_next_draw(journal, events, draw.revision)
}

fn may_commit(events: &[Event], r: Revision) -> bool
    ensures { IsTrue result ↔ MayCommit (reverse events.now) r }
{
    is_open(events, r) && is_apart(events, r)
}

// Whether no committed revision outside its base clashes with a revision.
#[tactic(auto, using(oak_machine::proofs::Forward::past_more))]
fn is_apart(events: &[Event], r: Revision) -> bool
    ensures { let past = reverse events.now in result ≡ is_apart_among past r past }
{
    let mut apart = true;
    for event in events {
        if let Event::Commit(other) = event {
            if !is_apart_from(events, r, *other) {
                apart = false;
            }
        }
    }
    apart
}

// Whether the base of a revision sees another, or they do not clash.
fn is_apart_from(events: &[Event], r: Revision, other: Revision) -> bool
    ensures { let past = reverse events.now in
        result ≡ (is_in_base past r other || not (are_clashing past r other)) }
{
    is_in_base(events, r, other) || !clashing(marks_of(events, r), marks_of(events, other))
}

fn may_refuse(events: &[Event], r: Revision, item: &Item, other: Revision) -> bool
    ensures { IsTrue result ↔ MayRefuse (reverse events.now) r item.now other }
{
    is_open(events, r)
        && meets(marks_of(events, r), marks_of(events, other), item)
        && !is_in_base(events, r, other)
        && was_live_beside(events, r, other)
}

// Whether a cluster node wasn't stopped, and a vector is what it learns.
fn may_take_in(journal: &Journal, cluster: u32, v: &RevVec) -> bool
    requires nodes { AreNodes journal.now.clusters journal.now.sessions }
    requires node { IsNode journal.now.clusters cluster }
    ensures { let h = history_of journal.now in IsTrue result
        ↔ (IsFalse (is_stopped h.past cluster) × MayLearn h cluster v.now) }
{
    !is_stopped(journal.events.as_slice(), cluster) && may_learn(journal, cluster, v)
}

// Whether a vector is what a cluster node learns from what had been published at some moment.
fn may_learn(journal: &Journal, cluster: u32, v: &RevVec) -> bool
    requires nodes { AreNodes journal.now.clusters journal.now.sessions }
    requires node { IsNode journal.now.clusters cluster }
    ensures { IsTrue result ↔ MayLearn (history_of journal.now) cluster v.now }
{
    let events = journal.events.as_slice();
    for at in 0..events.len() {
        if is_same(v, &learned(journal, events, &events[..at], cluster)) {
            return true;
        }
    }
    is_same(v, &learned(journal, events, events, cluster))
}

fn may_bound(journal: &Journal, m: &RevVec, t: &RevVec) -> bool
    requires { AreNodes journal.now.clusters journal.now.sessions }
    ensures { IsTrue result ↔ MayBound (history_of journal.now) m.now t.now }
{
    if !is_below_heads(journal, m) {
        return false;
    }
    if !is_below_kept(journal.events.as_slice(), m) {
        return false;
    }
    t.is_below(m)
}

// Whether a vector is at most the head of each cluster node that wasn't recovered.
fn is_below_heads(journal: &Journal, m: &RevVec) -> bool
    requires { AreNodes journal.now.clusters journal.now.sessions }
    ensures { let h = history_of journal.now in
        IsTrue result ↔ ((k : ℕ) → 1 ≤ k → k ≤ h.clusters → IsFalse (is_recovered h.past k)
        → IsTrue (is_below m.now (head_of h.clusters h.begin h.past k))) }
{
    for cluster in 1..journal.clusters + 1 {
        if !is_below_head(journal, m, cluster) {
            return false;
        }
    }
    true
}

// Whether a cluster node was recovered, or a vector is at most its head.
fn is_below_head(journal: &Journal, m: &RevVec, cluster: u32) -> bool
    requires nodes { AreNodes journal.now.clusters journal.now.sessions }
    requires node { IsNode journal.now.clusters cluster }
    ensures { let h = history_of journal.now in IsTrue result
        ↔ (IsFalse (is_recovered h.past cluster) → IsTrue (is_below m.now (head_of h.clusters h.begin h.past cluster))) }
{
    let events = journal.events.as_slice();
    is_recovered(events, cluster) || m.is_below(&head_of(journal, events, cluster))
}

// Whether a vector is at most each checkpoint that is kept.
#[tactic(auto, using(oak_machine::proofs::Forward::past_more))]
fn is_below_kept(events: &[Event], m: &RevVec) -> bool
    ensures { let past = reverse events.now in result ≡ is_below_kept_among past m.now past }
{
    let mut below = true;
    for event in events {
        if let Event::Checkpoint(id, _) = event {
            if let Some(v) = kept_checkpoint(events, id) {
                if !m.is_below(&v) {
                    below = false;
                }
            }
        }
    }
    below
}

// Whether a vector is the base of some session that isn't attached, and whose cluster node wasn't stopped.
fn may_keep(journal: &Journal, v: &RevVec) -> bool
    ensures { let h = history_of journal.now in IsTrue result
        ↔ ((s : ℕ) × (base_of h.past s ≡ Some v.now) × IsFalse (is_attached h.past s) × IsRunning h s) }
{
    is_free_base(journal.sessions.as_slice(), journal.events.as_slice(), v)
}

// Whether it is that of a session that an event gave a base.
#[tactic(auto, using(oak_machine::proofs::Forward::past_more))]
fn is_free_base(sessions: &[u32], events: &[Event], v: &RevVec) -> bool
    ensures { let past = reverse events.now in
        IsTrue result ↔ IsFreeBaseAmong sessions.now past v.now past }
{
    let mut found = false;
    for event in events {
        if is_free_base_by(sessions, events, v, event) {
            found = true;
        }
    }
    found
}

// The same for the session that gets a base by an event.
fn is_free_base_by(sessions: &[u32], events: &[Event], v: &RevVec, event: &Event) -> bool
    ensures { IsTrue result
        ↔ IsFreeBase sessions.now (reverse events.now) v.now (based_by event.now) }
{
    match event {
        Event::Login(session, _) | Event::Refresh(session, _) | Event::Attach(session, _) => {
            has_base(events, *session, v)
                && !is_attached(events, *session)
                && is_running(sessions, events, *session)
        }
        _ => false,
    }
}

// The numbers read and found of something skipped differ, or both are the last one.
fn is_skip(read: u64, found: u64) -> bool
    ensures { result ≡ is_skip read found }
{
    read != found || read == u64::MAX
}

fn may_split(events: &[Event], session: u32, end: &SplitEnd) -> bool
    ensures { IsTrue result
        ↔ (IsTrue (has_login (reverse events.now) session) × IsTrue (is_split_end end.now)) }
{
    has_login(events, session) && is_split_end(end)
}

fn is_split_end(end: &SplitEnd) -> bool
    ensures { result ≡ is_split_end end.now }
{
    match end {
        SplitEnd::Split(_) => true,
        SplitEnd::Skipped(read, found) => is_skip(*read, *found),
    }
}

fn may_collect(events: &[Event], session: u32, collected: &Collected) -> bool
    ensures { IsTrue result ↔ MayCollect (reverse events.now) session collected.now }
{
    has_login(events, session) && has_bound_since(events, session) && are_skips(collected)
}

fn are_skips(collected: &Collected) -> bool
    ensures { IsTrue result ↔ All (λ skip. IsTrue (is_skip skip.1 skip.2)) collected.now.skipped }
{
    for (_, read, found) in collected.skipped.as_slice() {
        if !is_skip(*read, *found) {
            return false;
        }
    }
    true
}

fn may_go(events: &[Event], session: u32) -> bool
    ensures { let past = reverse events.now in
        IsTrue result ↔ (IsTrue (has_login past session) × IsFalse (has_left past session)) }
{
    has_login(events, session) && !has_left(events, session)
}

fn is_next_index(events: &[Event], session: u32, index: u32) -> bool
    ensures { IsTrue result ↔ (index ≡ next_index (reverse events.now) session) }
{
    index as usize == next_index(events, session)
}
