// The new monitoring map (paper 01, Ladder, search, monitoring).
ghost use Rattle.std.specs.Prelude.{◌≡◌};
ghost use Rattle.rules.specs.Monitoring.{map_after_monitoring};
ghost use Rattle.checks.specs.Map.{IsMap, Holds, HoldsIfRoom, put_version, pairs_in, version_at};

use inputs::state::{MonitoringMap, State};
use std::mem;
use tree::search_tree::last_right_ancestor;

// The map with a version at a position, over a version that stands there; none where there is no
// room for one pair more.
// By hand and no `binary_search`: both arrays would be rotated, and one pass finds the place and moves both.
// IsMap is no fact of the type, here and below: a state may hold a map that breaks it.
pub(crate) fn with_pair(map: MonitoringMap, position: u64, version: u32) -> Option<MonitoringMap>
    requires { IsMap map }
    ensures { HoldsIfRoom (put_version position version (pairs_in map)) result }
{
    let mut positions = map.positions;
    let mut versions = map.versions;
    let count = map.count;
    let mut carried = position;
    let mut carried_version = version;
    for i in 0..count {
        if positions[i] == carried {
            versions[i] = carried_version;
            return Some(MonitoringMap {
                positions,
                versions,
                count,
            });
        }
        if carried < positions[i] {
            mem::swap(&mut positions[i], &mut carried);
            mem::swap(&mut versions[i], &mut carried_version);
        }
    }
    if count == State::PAIRS {
        return None;
    }
    positions[count] = carried;
    versions[count] = carried_version;
    Some(MonitoringMap {
        positions,
        versions,
        count: count + 1,
    })
}

// The map with each pair moved to the end of its right path in a log of so many entries; where
// pairs meet, the larger version stays.
pub(crate) fn moved_pairs(tree_size: u64, map: MonitoringMap) -> MonitoringMap
    requires { IsMap map }
    ensures { Holds (map_after_monitoring tree_size (pairs_in map)) result }
{
    let positions = map.positions;
    let versions = map.versions;
    let mut moved = MonitoringMap {
        positions: [0u64; State::PAIRS],
        versions: [0u32; State::PAIRS],
        count: 0,
    };
    // By index, backwards: positions and versions are two arrays (inputs::state says why).
    for i in (0..map.count).rev() {
        let end = last_right_ancestor(tree_size, positions[i]);
        let there = version_there(moved, end);
        let next = with_pair(moved, end, versions[i].max(there));
        moved = next.unwrap();
    }
    moved
}

// The version of the pair at a position, 0 where there is none. By index: positions and versions are
// two arrays (inputs::state says why).
fn version_there(map: MonitoringMap, position: u64) -> u32
    requires { IsMap map }
    ensures { result ≡ version_at position (pairs_in map) }
{
    let positions = map.positions;
    let versions = map.versions;
    for i in 0..map.count {
        if positions[i] == position {
            return versions[i];
        }
    }
    0
}
