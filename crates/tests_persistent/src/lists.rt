//! `PVec` against `Vec`.
use crate::drawing::draw;
use ref_pvec::PVec;
use std::alloc::{AllocError, Global};
use std::test::Fail;

// A version, and what it is to hold.
#[derive(Drop)]
struct Version {
    list: PVec<u64>,
    model: Vec<u64>,
}

fn empty(alloc: Global) -> Version {
    Version {
        list: PVec::empty(),
        model: Vec::new(alloc),
    }
}

// What is refused is tried again with what comes back, so that a run with one request for memory refused is compared too.
fn push(alloc: Global, version: &mut Version, item: u64) -> Result<(), AllocError> {
    if let Err(failed) = version.list.push(alloc, item) {
        version.list.push(alloc, failed.value)?;
    }
    version.model.push(item)?;
    Ok(())
}

fn share(version: &Version) -> Result<Version, AllocError> {
    Ok(Version {
        list: version.list.share()?,
        model: version.model.clone()?,
    })
}

// The items from an index on.
fn rest(alloc: Global, version: &Version, from: usize) -> Result<Version, AllocError> {
    let mut model = Vec::new(alloc);
    for item in version.model.iter().skip(from) {
        model.push(*item)?;
    }
    Ok(Version {
        list: version.list.rest(alloc, from)?,
        model,
    })
}

fn agrees_by_get(version: &Version) -> bool {
    for (i, item) in version.model.iter().enumerate() {
        if version.list.get(i) != Some(item) {
            return false;
        }
    }
    let end = version.model.len();
    version.list.get(end).is_none() && version.list.get(usize::MAX).is_none()
}

fn agrees_in_turn(version: &Version) -> bool {
    let mut left = version.model.iter();
    for item in &version.list {
        if left.next() != Some(item) {
            return false;
        }
    }
    left.next().is_none()
}

fn agrees(version: &Version) -> bool {
    version.list.len() == version.model.len()
        && version.list.is_empty() == version.model.is_empty()
        && agrees_by_get(version)
        && agrees_in_turn(version)
}

// Round the ends of chunks, and where the tree becomes higher.
const LENGTHS: [u64; 15] = [
    0, 1, 2, 31, 32, 33, 63, 64, 65, 96, 97, 1023, 1025, 2081, 5000,
];

fn list_of(alloc: Global, len: u64) -> Result<Version, AllocError> {
    let mut made = empty(alloc);
    for i in 0..len {
        push(alloc, &mut made, i.wrapping_mul(7))?;
    }
    Ok(made)
}

#[test]
fn a_list_has_what_was_pushed(rt: HostRuntime) -> Result<(), Fail> {
    for len in LENGTHS {
        let made = list_of(rt.alloc(), len)?;
        assert!(rt; agrees(&made), "{len} items");
    }
    Ok(())
}

#[test]
fn items_that_own_memory(rt: HostRuntime) -> Result<(), Fail> {
    let mut names: PVec<String> = PVec::empty();
    for i in 0..40 {
        names.push(rt.alloc(), format!(in rt.alloc(); "n{i}")?)?;
    }
    let before = names.share()?;
    names.push(rt.alloc(), String::from_str(rt.alloc(), "last")?)?;
    let last = names.get(40).map(|name| name.as_str());
    assert_eq!(rt; last, Some("last"));
    let first = before.get(0).map(|name| name.as_str());
    assert_eq!(rt; first, Some("n0"));
    assert_eq!(rt; before.len(), 40);
    Ok(())
}

#[test]
fn a_rest_begins_at_its_index(rt: HostRuntime) -> Result<(), Fail> {
    for len in LENGTHS {
        let made = list_of(rt.alloc(), len)?;
        for from in LENGTHS {
            let mut rest = rest(rt.alloc(), &made, from as usize)?;
            assert!(rt; agrees(&rest), "{from} of {len} items");
            for i in 0..70 {
                push(rt.alloc(), &mut rest, i)?;
            }
            assert!(rt; agrees(&rest), "{from} of {len} items and more");
        }
        assert!(rt; agrees(&made), "{len} items");
    }
    Ok(())
}

#[test]
fn the_first_items(rt: HostRuntime) -> Result<(), Fail> {
    for len in LENGTHS {
        let made = list_of(rt.alloc(), len)?;
        for count in LENGTHS {
            let mut first = list_of(rt.alloc(), count.min(len))?;
            first.list = made.list.first(rt.alloc(), count as usize)?;
            assert!(rt; agrees(&first), "{count} of {len} items");
            for i in 0..70 {
                push(rt.alloc(), &mut first, i)?;
            }
            assert!(rt; agrees(&first), "{count} of {len} items and more");
        }
        assert!(rt; agrees(&made), "{len} items");
    }
    Ok(())
}

#[test]
fn a_version_with_one_item_more(rt: HostRuntime) -> Result<(), Fail> {
    for len in LENGTHS {
        let mut made = list_of(rt.alloc(), len)?;
        let Ok(longer) = made.list.pushed(rt.alloc(), 9) else {
            return Ok(());
        };
        assert!(rt; agrees(&made), "{len} items");
        push(rt.alloc(), &mut made, 9)?;
        made.list = longer;
        assert!(rt; agrees(&made), "one more than {len} items");
    }
    Ok(())
}

// ---- Drawn steps on versions that are all held

// Mostly the newest version goes on, and sometimes an older one.
fn drawn_place(seed: &mut u64, count: usize) -> usize {
    match draw(seed, 4) {
        0 => draw(seed, count),
        _ => count.saturating_sub(1),
    }
}

// One item more in a version, or one more version of the same items, or of all but some of the first.
fn step(alloc: Global, seed: &mut u64, versions: &mut Vec<Version>) -> Result<(), AllocError> {
    let place = drawn_place(seed, versions.len());
    let shares = draw(seed, 60) == 0;
    let rests = draw(seed, 400) == 0;
    let item = draw(seed, 1000) as u64;
    let Some(version) = versions.get_mut(place) else {
        return Ok(());
    };
    if shares {
        let same = share(version)?;
        versions.push(same)?;
        return Ok(());
    }
    if rests {
        let from = draw(seed, version.model.len().min(99) + 1);
        let fewer = rest(alloc, version, from)?;
        versions.push(fewer)?;
        return Ok(());
    }
    push(alloc, version, item)
}

fn longest(versions: &[Version]) -> usize {
    let mut most = 0;
    for version in versions {
        most = most.max(version.model.len());
    }
    most
}

#[test]
fn old_versions_stay(rt: HostRuntime) -> Result<(), Fail> {
    let mut versions = vec![in rt.alloc(); empty(rt.alloc())]?;
    let mut seed: u64 = 15;
    for _ in 0..12000 {
        step(rt.alloc(), &mut seed, &mut versions)?;
    }
    for (i, version) in versions.iter().enumerate() {
        assert!(rt; agrees(version), "version {i}");
    }
    // Enough of both was drawn.
    assert!(rt; versions.len() >= 200, "{} versions", versions.len());
    assert!(rt; longest(&versions) > 2048, "{} items", longest(&versions));
    Ok(())
}
