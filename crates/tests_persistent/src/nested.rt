//! Versions of a map in a list.
use ref_pmap::PMap;
use ref_pvec::PVec;
use std::alloc::{AllocError, Global};
use std::test::Fail;

// The map after each of a hundred changes of seven keys.
fn history(alloc: Global) -> Result<PVec<PMap<u32>>, AllocError> {
    let mut versions = PVec::empty();
    let mut map = PMap::empty();
    for i in 0..100u32 {
        map = map.with(alloc, i % 7, i)?;
        versions.push(alloc, map.share()?)?;
    }
    Ok(versions)
}

#[test]
fn a_list_of_maps(rt: HostRuntime) -> Result<(), Fail> {
    let versions = history(rt.alloc())?;
    let mut wanted: usize = 0;
    for map in &versions {
        wanted = wanted.saturating_add(1).min(7);
        assert_eq!(rt; map.len(), wanted);
    }
    let found = [49, 50, 57].map(|i| versions.get(i).and_then(|map| map.get(1).copied()));
    assert_eq!(rt; found, [Some(43), Some(50), Some(57)]);
    Ok(())
}
