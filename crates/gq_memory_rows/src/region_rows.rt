// A region map on its happy path, and what no contract can say: that the host gives memory where it has some.
ghost use Rattle.std.specs.Prelude.{◌≡◌, None, replicate};

use crate::used::used;
use gq_region::{Base, Full, RegionMap};

// What addresses resolve to in a map of two places: before anything is attached; once a range is at each; and the first one once its range is detached, and
// once another is attached. Nothing where a range does not get the lowest place, or where a third one does not find the map full.
fn use_places(map: &mut RegionMap) -> Option<([Option<(u32, u32)>; 3], [Option<(u32, u32)>; 7])>
    requires { map.old ≡ replicate 2 None }
{
    let before = map.resolve(0);
    if map.attach(7, 8192) != Ok(Base(0)) {
        return None;
    }
    if map.attach(9, 4096) != Ok(Base(67108864)) {
        return None;
    }
    let resolved = [
        map.resolve(67108865),
        map.resolve(67112959),
        map.resolve(67112960),
        map.resolve(8191),
        map.resolve(8192),
        map.resolve(134217728),
        map.resolve(u64::MAX),
    ];
    if map.attach(1, 1) != Err(Full) {
        return None;
    }
    map.detach(Base(0));
    let detached = map.resolve(0);
    if map.attach(1, 1) != Ok(Base(0)) {
        return None;
    }
    Some(([before, detached, map.resolve(0)], resolved))
}

#[test]
fn takes_the_lowest_place(rt: HostRuntime) {
    assert_eq!(rt;
        used(RegionMap::new(rt.alloc(), 2), use_places),
        Ok(Some((
            [None, None, Some((1, 0))],
            [
                Some((9, 1)),
                Some((9, 4095)),
                None,
                Some((7, 8191)),
                None,
                None,
                None
            ]
        )))
    );
}
