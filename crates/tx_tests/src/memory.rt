//! Each public call on pages, and each plan of one.
use std::alloc::Global;
use std::test::Fail;
use tx_pages::{Access, PageError, Space};

/// The byte at an address, where its page is mapped.
fn byte(space: &Space, address: i64) -> Option<u8> {
    space.load(address).ok()
}

/// A space of pages 0 and 1, with bytes written across their border.
fn written(alloc: Global) -> Result<Space, PageError> {
    let mut space = Space::new();
    space.map(alloc, 0)?;
    space.map(alloc, 1)?;
    space.store(alloc, 62, &[1, 2, 3])?;
    Ok(space)
}

/// Whether the bytes before the border, and across it, are those that were written.
fn has_bytes(space: &Space) -> bool {
    let mut bytes = [9; 4];
    let taken = space.take(61, &mut bytes);
    taken.is_ok() && bytes == [0, 1, 2, 3] && space.part(61, 9) == [0, 1, 2].as_slice()
}

#[test]
fn pages_are_mapped_and_written(rt: HostRuntime) -> Result<(), Fail> {
    let mut space = written(rt.alloc())?;
    assert!(rt; has_bytes(&space));
    space.protect(0, false)?;
    assert!(rt; space.is_good(Access::Read, 0, 128) && !space.is_good(Access::Write, 63, 2));
    space.unmap(1)?;
    assert!(rt; byte(&space, 63) == Some(2) && byte(&space, 64).is_none());
    assert!(rt; space.part(64, 2) == [0, 0].as_slice());
    Ok(())
}

#[test]
fn copies_of_pages_stay_apart(rt: HostRuntime) -> Result<(), Fail> {
    let mut parent = Space::new();
    parent.map(rt.alloc(), 0)?;
    let mut kept = parent.copy_page(0)?;
    let mut child = parent.copy()?;
    child.store(rt.alloc(), 3, &[6])?;
    assert!(rt; byte(&parent, 3) == Some(0) && byte(&child, 3) == Some(6));
    child.swap_page(0, &mut kept);
    assert!(rt; byte(&child, 3) == Some(0) && kept.is_some());
    Ok(())
}

/// Whether the plans of a map of page 1, of a protect and of an unmap of page 0 are what they are
/// to be.
fn are_planned(alloc: Global, space: &Space) -> Result<bool, PageError> {
    let mapped = space.plan_map(alloc, 1)?;
    let closed = space.plan_protect(0, false)?;
    let gone = space.plan_unmap(0)?;
    let is_closed = closed.page.is_some_and(|page| !page.is_writable());
    Ok(mapped.number == 1 && is_closed && gone.page.is_none())
}

/// Whether a store on page 0 is planned so, and one across its end is left to `plan_store`.
fn are_planned_on_page(alloc: Global, space: &Space) -> Result<bool, PageError> {
    let Some(stored) = space.plan_store_on_page(alloc, 63, &[4]) else {
        return Ok(false);
    };
    let stored = stored?;
    let last = stored.page.map(|page| page.bytes()[63]);
    let is_left = space.plan_store_on_page(alloc, 63, &[4, 5]).is_none();
    Ok(stored.number == 0 && last == Some(4) && is_left)
}

/// Stores a byte in page 0 by a plan. Answers what was there when it was planned.
fn store_by_plan(alloc: Global, space: &mut Space) -> Result<Option<u8>, PageError> {
    let stored = space.plan_store(alloc, 5, &[2])?;
    let before = byte(space, 5);
    space.put_pages(stored);
    Ok(before)
}

#[test]
fn plans_of_pages_change_nothing(rt: HostRuntime) -> Result<(), Fail> {
    let mut space = Space::new();
    space.map(rt.alloc(), 0)?;
    assert!(rt; are_planned(rt.alloc(), &space)?);
    assert!(rt; are_planned_on_page(rt.alloc(), &space)?);
    assert!(rt; space.is_good(Access::Write, 0, 64) && space.page(1).is_none());
    assert!(rt; store_by_plan(rt.alloc(), &mut space)? == Some(0));
    assert!(rt; byte(&space, 5) == Some(2));
    Ok(())
}
