//! Both kinds of link beside a plain list, by the same text.
use crate::{ByteLink, CellLink, Link, LinkError, LinkFault, NewLinkError, oldest, pass_on};
use std::alloc::Global;
use std::process::Abort;
use std::test::Fail;

// Puts a cell of marks; the list of all marks that were put grows with it.
fn put_marked<L: Link>(
    rt: &impl Abort,
    link: &mut L,
    all: &mut Vec<u8>,
    mark: u8,
    capacity: usize,
) -> Result<(), Fail> {
    match link.put(&[mark; 514]) {
        Ok(()) => all.push(mark)?,
        Err(e) => {
            assert_eq!(rt; e, LinkError::Full);
            assert_eq!(rt; link.count(), capacity);
        }
    }
    Ok(())
}

// Looks at the oldest cell and drops it: it has the mark that was put first of those that wait.
fn drop_marked<L: Link>(rt: &impl Abort, link: &mut L, all: &Vec<u8>, gone: usize) {
    assert!(rt; gone < all.len());
    let mut cell = [0u8; 514];
    assert!(rt; link.look(&mut cell).is_ok());
    assert_eq!(rt; cell[0], all[gone]);
    assert_eq!(rt; cell[513], all[gone]);
    assert!(rt; link.drop_oldest().is_ok());
}

// Fills the link, drops some, and fills it again, round the end of its slots many times; then drains it.
fn beside_a_list<L: Link>(
    rt: &impl Abort,
    link: &mut L,
    capacity: usize,
    heap: Global,
) -> Result<(), Fail> {
    let mut all = Vec::new(heap);
    // Counted by hand: how many go depends on the round, and after 255 the marks begin again.
    let mut gone: usize = 0;
    let mut mark: u8 = 0;
    for round in 0..60usize {
        for _ in 0..5 {
            put_marked(rt, link, &mut all, mark, capacity)?;
            mark = mark.wrapping_add(1);
        }
        for _ in 0..round % 3 {
            drop_marked(rt, link, &all, gone);
            assert!(rt; gone < all.len());
            gone += 1;
        }
        assert!(rt; gone <= all.len());
        assert_eq!(rt; link.count(), all.len() - gone);
    }
    for place in gone..all.len() {
        drop_marked(rt, link, &all, place);
    }
    assert_eq!(rt; link.count(), 0);
    let mut cell = [7u8; 514];
    assert!(rt; link.look(&mut cell).is_err() && link.drop_oldest().is_err());
    assert_eq!(rt; cell[0], 7);
    Ok(())
}

#[test]
fn cell_link(rt: HostRuntime) -> Result<(), Fail> {
    assert!(rt; CellLink::new(rt.alloc(), 0).is_err());
    let mut link = CellLink::new(rt.alloc(), 3)?;
    beside_a_list(&rt, &mut link, 3, rt.alloc())
}

#[test]
fn byte_link(rt: HostRuntime) -> Result<(), Fail> {
    assert!(rt; ByteLink::new(5).is_err());
    let mut link = ByteLink::new(4)?;
    beside_a_list(&rt, &mut link, 4, rt.alloc())
}

#[test]
fn row(rt: HostRuntime) -> Result<(), Fail> {
    let mut links = [ByteLink::new(1)?, ByteLink::new(2)?];
    let mut cell = [9u8; 514];
    assert!(rt; pass_on(&mut links, 1, 2, &cell).is_err());
    assert!(rt; links[0].put(&cell).is_ok());
    assert!(rt; pass_on(&mut links, 1, 2, &cell).is_ok());
    assert!(rt; oldest(&links, 1, &mut cell).is_err() && oldest(&links, 2, &mut cell).is_ok());
    assert_eq!(rt; links[1].count(), 1);
    Ok(())
}

#[test]
fn printed(rt: HostRuntime) -> Result<(), Fail> {
    for (error, text) in [
        (LinkError::NotACell, "not a cell of 514 bytes"),
        (LinkError::Full, "as many cells wait as the link takes"),
        (LinkError::Empty, "no cell waits"),
        (LinkError::NoSuchLink, "no link has this number"),
    ] {
        assert_eq!(rt; format!(in rt.alloc(); "{error}")?.as_str(), text);
    }
    let fault = LinkFault {
        at: 7,
        error: LinkError::Empty,
    };
    assert_eq!(rt;
        format!(in rt.alloc(); "{fault}")?.as_str(),
        "link 7: no cell waits"
    );
    for (error, text) in [
        (
            NewLinkError::Capacity,
            "no link of this kind has this capacity",
        ),
        (NewLinkError::Memory, "out of memory"),
    ] {
        assert_eq!(rt; format!(in rt.alloc(); "{error}")?.as_str(), text);
    }
    Ok(())
}
