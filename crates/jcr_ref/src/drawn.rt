// What a session's commands make of themselves: dates, and identifiers up to the limit.
ghost use Rattle.std.specs.Prelude.{◌≡◌, ◌≤◌};
ghost use Rattle.std.specs.Option.{option_map_or};
ghost use Rattle.jr_rev.specs.Vectors.{entry};
ghost use Rattle.jcr_ref.specs.Drawn.{latest_among, latest_date};

use jr_rev::RevVec;

/// The most identifiers that a session draws.
pub const MAX_IDS: u32 = 16_777_215;

/// The date of what a command makes of itself: the greatest time of a vector in milliseconds, 0 where it has no
/// entry, at most 2^63 - 1.
pub fn latest_date(base: &RevVec) -> i64
    ensures { result ≡ latest_date base.now }
{
    latest_among(base, 8).min(i64::MAX as u64) as i64
}

// The greatest time of the entries of the first cluster nodes, so many of them.
fn latest_among(base: &RevVec, clusters: u32) -> u64
    requires { clusters ≤ 8 }
    ensures { result ≡ latest_among base.now clusters }
{
    if clusters == 0 {
        return 0;
    }
    latest_among(base, clusters - 1).max(time_of(base, clusters))
}

fn time_of(base: &RevVec, cluster: u32) -> u64
    ensures { result ≡ option_map_or (λ r. r.time) (entry base.now cluster) 0 }
{
    match base.get(cluster) {
        Some(revision) => revision.time,
        None => 0,
    }
}
