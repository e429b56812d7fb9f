//! Looks where rooms are shown, and where the lines alone are.
use crate::desk::look;
use crate::files::{Why, grid_of};
use seat_display::{Shows, open};
use std::alloc::Global;
use std::sync::Wait;
use std::test::Fail;

/// What the one viewer of a new display over three seats finds.
fn first_look<R: Wait>(rt: &R, alloc: Global, shows: Shows) -> Result<Option<(u16, u32)>, Why> {
    let Ok(grid) = grid_of(alloc, 3, 0) else {
        return Err(Why::Memory);
    };
    let Ok((publisher, mut viewers)) = open(rt, alloc, &grid, 1, shows) else {
        return Err(Why::Memory);
    };
    let found = match viewers.as_mut_slice().first_mut() {
        Some(viewer) => Ok(look(viewer)),
        None => Err(Why::Viewer),
    };
    publisher.end(rt);
    found
}

#[test]
fn looks_where_rooms_are_shown(rt: HostRuntime) -> Result<(), Fail> {
    let rooms = first_look(&rt, rt.alloc(), Shows::Rooms)?;
    let lines = first_look(&rt, rt.alloc(), Shows::Lines)?;
    assert!(rt;
        rooms == Some((3, 0)),
        "no sight of the rooms that are shown"
    );
    assert!(rt; lines.is_none(), "a sight where the lines alone are shown");
    Ok(())
}
