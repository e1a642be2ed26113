//! `PMap` against a list with a place for each key.
use crate::drawing::draw;
use ref_pmap::PMap;
use std::alloc::{AllocError, Global};
use std::test::Fail;

// The keys that are tried, ascending: close ones, ends of blocks of powers of two, and the last ones.
const KEYS: [u32; 40] = [
    0, 1, 2, 3, 4, 5, 6, 7, 8, 9, 10, 11, 12, 13, 14, 15, 16, 17, 30, 31, 32, 33, 63, 64, 100, 127,
    128, 1000, 1023, 1024, 65535, 65536, 16777215, 16777216, 2147483646, 2147483647, 2147483648,
    2147483649, 4294967294, 4294967295,
];

// A version, and the value that each key is to have.
#[derive(Drop)]
struct Version {
    map: PMap<u64>,
    model: Vec<Option<u64>>,
}

fn empty(alloc: Global) -> Result<Version, AllocError> {
    Ok(Version {
        map: PMap::empty(),
        model: vec![in alloc; None; 40]?,
    })
}

fn model_with(
    version: &Version,
    place: usize,
    value: Option<u64>,
) -> Result<Vec<Option<u64>>, AllocError> {
    let mut model = version.model.clone()?;
    if let Some(slot) = model.get_mut(place) {
        *slot = value;
    }
    Ok(model)
}

// What is refused is tried again, so that a run with one request for memory refused is compared too.
fn with(alloc: Global, version: &Version, place: usize, value: u64) -> Result<Version, AllocError> {
    let key = KEYS.get(place).copied().unwrap_or(0);
    let map = match version.map.with(alloc, key, value) {
        Ok(map) => map,
        Err(_) => version.map.with(alloc, key, value)?,
    };
    Ok(Version {
        map,
        model: model_with(version, place, Some(value))?,
    })
}

fn without(alloc: Global, version: &Version, place: usize) -> Result<Version, AllocError> {
    let key = KEYS.get(place).copied().unwrap_or(0);
    let map = match version.map.without(alloc, key) {
        Ok(map) => map,
        Err(_) => version.map.without(alloc, key)?,
    };
    Ok(Version {
        map,
        model: model_with(version, place, None)?,
    })
}

// ---- Whether a version is as it is to be

fn agrees_by_get(version: &Version) -> bool {
    for (key, value) in KEYS.iter().zip(&version.model) {
        if version.map.get(*key).copied() != *value {
            return false;
        }
    }
    version.map.get(18).is_none() && version.map.get(70000).is_none()
}

fn entries(alloc: Global, version: &Version) -> Result<Vec<(u32, u64)>, AllocError> {
    let mut all = Vec::new(alloc);
    for (key, value) in KEYS.iter().zip(&version.model) {
        if let Some(value) = value {
            all.push((*key, *value))?;
        }
    }
    Ok(all)
}

fn walked(alloc: Global, map: &PMap<u64>) -> Result<Vec<(u32, u64)>, AllocError> {
    let mut all = Vec::new(alloc);
    for (key, value) in map.walk(alloc)?.iter() {
        all.push((*key, **value))?;
    }
    Ok(all)
}

fn agrees(alloc: Global, version: &Version) -> Result<bool, AllocError> {
    let wanted = entries(alloc, version)?;
    Ok(
        version.map.len() == wanted.len()
            && version.map.is_empty() == wanted.is_empty()
            && agrees_by_get(version)
            && walked(alloc, &version.map)? == wanted,
    )
}

// ---- By hand

#[test]
fn without_leaves_the_older_version(rt: HostRuntime) -> Result<(), Fail> {
    let alloc = rt.alloc();
    let both = PMap::empty().with(alloc, 3, 30)?.with(alloc, 4, 40)?;
    let one = both.without(alloc, 3)?;
    assert_eq!(rt; walked(alloc, &one)?.as_slice(), [(4, 40)].as_slice());
    assert_eq!(rt;
        walked(alloc, &both)?.as_slice(),
        [(3, 30), (4, 40)].as_slice()
    );
    Ok(())
}

#[test]
fn values_that_own_memory(rt: HostRuntime) -> Result<(), Fail> {
    let alloc = rt.alloc();
    let first: PMap<String> = PMap::empty().with(alloc, 7, String::from_str(alloc, "seven")?)?;
    let second = first
        .share()?
        .with(alloc, 7, String::from_str(alloc, "sept")?)?;
    let values = [&first, &second].map(|map| map.get(7).map(|name| name.as_str()));
    assert_eq!(rt; values, [Some("seven"), Some("sept")]);
    Ok(())
}

// ---- Many keys, in several orders

fn key_at(order: usize, i: u32) -> u32 {
    match order {
        0 => i,
        1 => 2999u32.saturating_sub(i),
        2 => i.wrapping_mul(7) % 3000,
        _ => i.reverse_bits(),
    }
}

fn filled(alloc: Global, order: usize) -> Result<PMap<u32>, AllocError> {
    let mut map = PMap::empty();
    for i in 0..3000u32 {
        map = map.with(alloc, key_at(order, i), i)?;
    }
    Ok(map)
}

fn has_all(map: &PMap<u32>, order: usize) -> bool {
    for i in 0..3000u32 {
        if map.get(key_at(order, i)) != Some(&i) {
            return false;
        }
    }
    map.len() == 3000
}

fn emptied(alloc: Global, full: &PMap<u32>, order: usize) -> Result<PMap<u32>, AllocError> {
    let mut map = full.share()?;
    for i in 0..3000u32 {
        map = map.without(alloc, key_at(order, i))?;
    }
    Ok(map)
}

#[test]
fn keys_in_any_order(rt: HostRuntime) -> Result<(), Fail> {
    for order in 0..4 {
        let full = filled(rt.alloc(), order)?;
        assert!(rt; has_all(&full, order), "order {order}");
        assert!(rt;
            emptied(rt.alloc(), &full, order)?.is_empty(),
            "order {order}"
        );
        assert!(rt; has_all(&full, order), "order {order}, later");
    }
    Ok(())
}

// ---- Drawn steps on versions that are all held

// A new version of one that is drawn, with one entry more or less.
fn step(alloc: Global, seed: &mut u64, versions: &mut Vec<Version>) -> Result<(), AllocError> {
    let old = match draw(seed, 3) {
        0 => draw(seed, versions.len()),
        _ => versions.len().saturating_sub(1),
    };
    let (place, takes, value) = (draw(seed, 40), draw(seed, 3) == 0, draw(seed, 1000) as u64);
    let Some(version) = versions.get(old) else {
        return Ok(());
    };
    let new = if takes {
        without(alloc, version, place)?
    } else {
        with(alloc, version, place, value)?
    };
    versions.push(new)?;
    Ok(())
}

fn largest(versions: &[Version]) -> usize {
    let mut most = 0;
    for version in versions {
        most = most.max(version.map.len());
    }
    most
}

#[test]
fn old_versions_stay(rt: HostRuntime) -> Result<(), Fail> {
    let mut versions = vec![in rt.alloc(); empty(rt.alloc())?]?;
    let mut seed: u64 = 12;
    for _ in 0..3000 {
        step(rt.alloc(), &mut seed, &mut versions)?;
    }
    for (i, version) in versions.iter().enumerate() {
        assert!(rt; agrees(rt.alloc(), version)?, "version {i}");
    }
    // Enough was drawn.
    assert!(rt; largest(&versions) > 25, "{} entries", largest(&versions));
    Ok(())
}
