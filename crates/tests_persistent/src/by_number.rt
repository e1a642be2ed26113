//! `Numbered` against `Vec`.
use crate::drawing::draw;
use ref_pmap::Numbered;
use std::alloc::{AllocError, Global};
use std::test::Fail;

// A version, and what it is to hold.
#[derive(Drop)]
struct Version {
    values: Numbered<u64>,
    model: Vec<u64>,
}

fn first(alloc: Global) -> Version {
    Version {
        values: Numbered::empty(),
        model: Vec::new(alloc),
    }
}

fn with(alloc: Global, version: &Version, number: u32, value: u64) -> Result<Version, AllocError> {
    if number as usize >= version.values.len() {
        return Err(AllocError);
    }
    let mut model = version.model.clone()?;
    if let Some(slot) = model.get_mut(number as usize) {
        *slot = value;
    }
    Ok(Version {
        values: version.values.with(alloc, number, value)?,
        model,
    })
}

// Puts another value in, and leaves the versions that share some of its values as they are.
fn set(alloc: Global, version: &mut Version, number: u32, value: u64) -> Result<(), AllocError> {
    if number as usize >= version.values.len() {
        return Ok(());
    }
    version.values.set(alloc, number, value)?;
    if let Some(slot) = version.model.get_mut(number as usize) {
        *slot = value;
    }
    Ok(())
}

fn with_next(alloc: Global, version: &Version, value: u64) -> Result<Version, AllocError> {
    let mut model = version.model.clone()?;
    model.push(value)?;
    Ok(Version {
        values: version.values.with_next(alloc, value)?,
        model,
    })
}

fn agrees_by_get(version: &Version) -> bool {
    let mut number = 0u32;
    for value in &version.model {
        if version.values.get(number) != Some(value) {
            return false;
        }
        let Some(next) = number.checked_add(1) else {
            return false;
        };
        number = next;
    }
    version.values.get(number).is_none()
}

fn agrees_in_order(version: &Version) -> bool {
    for (value, wanted) in version.values.iter().zip(&version.model) {
        if value != wanted {
            return false;
        }
    }
    version.values.iter().count() == version.model.len()
}

fn agrees(version: &Version) -> bool {
    version.values.len() == version.model.len()
        && version.values.is_empty() == version.model.is_empty()
        && agrees_by_get(version)
        && agrees_in_order(version)
}

// Another value in a version that is drawn; or a version of it, with one value more or another value.
fn step(alloc: Global, seed: &mut u64, versions: &mut Vec<Version>) -> Result<(), AllocError> {
    let old = match draw(seed, 3) {
        0 => draw(seed, versions.len()),
        _ => versions.len().saturating_sub(1),
    };
    let value = draw(seed, 1000) as u64;
    let Some(version) = versions.get(old) else {
        return Ok(());
    };
    let Ok(number) = u32::try_from(draw(seed, version.model.len())) else {
        return Ok(());
    };
    if draw(seed, 4) == 0 {
        if let Some(version) = versions.get_mut(old) {
            set(alloc, version, number, value)?;
        }
        return Ok(());
    }
    let new = if draw(seed, 3) == 0 && !version.model.is_empty() {
        with(alloc, version, number, value)?
    } else {
        with_next(alloc, version, value)?
    };
    versions.push(new)?;
    Ok(())
}

#[test]
fn old_versions_by_number_stay(rt: HostRuntime) -> Result<(), Fail> {
    let alloc = rt.alloc();
    let mut versions = Vec::new(alloc);
    versions.push(first(alloc))?;
    let mut seed = 16;
    for _ in 0..400 {
        step(alloc, &mut seed, &mut versions)?;
    }
    for version in &versions {
        assert!(rt; agrees(version));
        assert!(rt; version.values.share()?.len() == version.model.len());
    }
    Ok(())
}
