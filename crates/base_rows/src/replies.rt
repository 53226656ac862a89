// Replies that no tree decides.
use jcr_trans::{memory_reply, null_reply, revision_reply, too_many_reply, vector_reply};
use jr_rev::{RevVec, Revision};
use rows::Out;

pub(crate) fn add(word: &str, out: &mut Out) {
    match word {
        "null" => out.put_made(null_reply(out.alloc)),
        "memory" => out.put_made(memory_reply(out.alloc)),
        "many" => out.put_made(too_many_reply(out.alloc)),
        "first" => put_revision(1, 0, 1, out),
        "last" => put_revision(u64::MAX, u32::MAX, 8, out),
        "start" => put_vector(&RevVec::start(2), out),
        "later" => put_vector(&later(), out),
        _ => put_vector(&RevVec::none(), out),
    }
}

fn put_revision(time: u64, counter: u32, cluster: u32, out: &mut Out) {
    let revision = Revision {
        time,
        counter,
        cluster,
    };
    out.put(revision_reply(&revision).as_str());
}

fn put_vector(vector: &RevVec, out: &mut Out) {
    out.put_made(vector_reply(out.alloc, vector));
}

// Cluster node 2 is at time 201.
fn later() -> RevVec {
    let mut later = RevVec::start(2);
    later.set(Revision {
        time: 201,
        counter: 0,
        cluster: 2,
    });
    later
}
