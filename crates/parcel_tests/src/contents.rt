// The contents list.
use crate::build::{ask, blank, fill, put};
use std::alloc::Global;
use std::process::Abort;
use std::test::Fail;

#[test]
fn first_byte(rt: HostRuntime) -> Result<(), Fail> {
    assert_eq!(rt; ask(&Vec::new(rt.alloc())), (11, 0));
    for (first, number) in [
        (0u8, 11u8),
        (1, 11),
        (2, 11),
        (3, 12),
        (4, 12),
        (5, 11),
        (255, 11),
    ] {
        let mut parcel = Vec::new(rt.alloc());
        parcel.push(first)?;
        assert_eq!(rt; ask(&parcel), (number, 0));
    }
    Ok(())
}

// A lawful list of these kinds, the parcel cut or lengthened to so many bytes.
fn cut_to(
    rt: &impl Abort,
    heap: Global,
    kinds: &[u8],
    lengths: [(usize, u8); 5],
) -> Result<(), Fail> {
    for (length, number) in lengths {
        let mut parcel = blank(heap, kinds)?;
        fill(&mut parcel, 1)?;
        parcel.truncate(length);
        assert_eq!(rt; ask(&parcel), (number, 0));
    }
    Ok(())
}

#[test]
fn whole_length(rt: HostRuntime) -> Result<(), Fail> {
    let three = [(9usize, 12u8), (10, 15), (777, 15), (778, 0), (779, 15)];
    let four = [(12usize, 12u8), (13, 15), (814, 15), (815, 0), (816, 15)];
    cut_to(&rt, rt.alloc(), &[1, 2, 3], three)?;
    cut_to(&rt, rt.alloc(), &[1, 2, 3, 4], four)
}

#[test]
fn kinds_in_every_order(rt: HostRuntime) -> Result<(), Fail> {
    let orders = [
        [1u8, 2, 3],
        [1, 3, 2],
        [2, 1, 3],
        [2, 3, 1],
        [3, 1, 2],
        [3, 2, 1],
    ];
    for [a, b, c] in orders {
        assert_eq!(rt; ask(&blank(rt.alloc(), &[a, b, c])?), (0, 0));
        assert_eq!(rt; ask(&blank(rt.alloc(), &[4, a, b, c])?), (0, 0));
        assert_eq!(rt; ask(&blank(rt.alloc(), &[a, 4, b, c])?), (0, 0));
        assert_eq!(rt; ask(&blank(rt.alloc(), &[a, b, 4, c])?), (0, 0));
        assert_eq!(rt; ask(&blank(rt.alloc(), &[a, b, c, 4])?), (0, 0));
    }
    Ok(())
}

#[test]
fn wrong_kinds(rt: HostRuntime) -> Result<(), Fail> {
    for [a, b, c] in [
        [1u8, 2, 2],
        [1, 2, 4],
        [0, 2, 3],
        [1, 2, 5],
        [4, 4, 4],
        [1, 255, 3],
    ] {
        assert_eq!(rt; ask(&blank(rt.alloc(), &[a, b, c])?), (13, 0));
    }
    for [a, b, c, d] in [
        [1u8, 2, 3, 3],
        [1, 2, 3, 0],
        [1, 2, 3, 5],
        [1, 2, 4, 4],
        [1, 1, 2, 3],
    ] {
        assert_eq!(rt; ask(&blank(rt.alloc(), &[a, b, c, d])?), (13, 0));
    }
    Ok(())
}

// One length byte of a lawful list exchanged: 14 comes before 15.
#[test]
fn wrong_lengths(rt: HostRuntime) -> Result<(), Fail> {
    for (at, byte) in [
        (2usize, 255u8),
        (3, 0),
        (5, 1),
        (6, 2),
        (9, 0),
        (11, 33),
        (11, 35),
        (12, 1),
    ] {
        let mut parcel = blank(rt.alloc(), &[1, 2, 3, 4])?;
        put(&mut parcel, at, byte);
        assert_eq!(rt; ask(&parcel), (14, 0));
    }
    Ok(())
}
