// Two seats that store one entry, in every order of their events.
use crate::fixtures::{ENTRY, entry_file, journal_of, text_of};
use crate::phases::Phase;
use crate::writers::Writers;
use outside::MemoryFiles;
use std::alloc::Global;
use std::test::Fail;

// Two seats that both want the lock, of which the second was told that it has it not.
fn both_want(alloc: Global) -> Result<Writers, Fail> {
    let mut writers = Writers::new(alloc)?;
    let first = writers.advance(alloc, false)?;
    let second = writers.advance(alloc, true)?;
    let told = writers.advance(alloc, true)?;
    if first == Phase::Wanting && second == Phase::Wanting && told == Phase::Wanting {
        Ok(writers)
    } else {
        Err(Fail::new("not both wait"))
    }
}

#[test]
fn the_second_has_the_lock_when_the_first_gives_way(rt: HostRuntime) -> Result<(), Fail> {
    let alloc = rt.alloc();
    let mut writers = both_want(alloc)?;
    writers.give_way();
    assert!(rt; writers.advance(alloc, true)? == Phase::Holding);
    Ok(())
}

// Up to eight events of one seat.
fn advance_by_eight(alloc: Global, writers: &mut Writers, is_second: bool) -> Result<(), Fail> {
    for _ in 0..8u32 {
        writers.advance(alloc, is_second)?;
    }
    Ok(())
}

// Sixteen events, each of the seat that a bit of the order tells: the second where the bit is set.
fn advance_in_order(alloc: Global, writers: &mut Writers, order: u32) -> Result<(), Fail> {
    for place in 0..16u32 {
        writers.advance(alloc, (order >> place) % 2 == 1)?;
    }
    Ok(())
}

// Whether these files have the one entry, committed once.
fn have_one_entry(alloc: Global, files: &mut MemoryFiles) -> Result<bool, Fail> {
    let journal = journal_of(alloc, &[(b"DIRTY ", b""), (b"CLEAN ", b" 42")])?;
    let is_once = text_of(alloc, files, b"journal")?.as_slice() == journal.as_slice();
    Ok(text_of(alloc, files, &entry_file(alloc)?)?.as_slice() == ENTRY && is_once)
}

// Whether both seats end, and leave one entry that was committed once. After the events of the order each goes on alone.
fn stores_once(alloc: Global, order: u32) -> Result<bool, Fail> {
    let mut writers = Writers::new(alloc)?;
    advance_in_order(alloc, &mut writers, order)?;
    advance_by_eight(alloc, &mut writers, false)?;
    advance_by_eight(alloc, &mut writers, true)?;
    advance_by_eight(alloc, &mut writers, false)?;
    let are_done = writers.are_done();
    let mut files = writers.into_files();
    Ok(have_one_entry(alloc, &mut files)? && are_done)
}

// Whether eight of the first sixteen bits are set.
fn has_eight(order: u32) -> bool {
    let mut count: u32 = 0;
    for place in 0..16u32 {
        count = count.saturating_add((order >> place) % 2);
    }
    count == 8
}

// In how many of these orders the entry is stored once, if it is so in each.
fn orders_that_store_once(alloc: Global, from: u32, to: u32) -> Result<u32, Fail> {
    let mut count: u32 = 0;
    for order in from..to {
        if has_eight(order) {
            if !stores_once(alloc, order)? {
                return Err(Fail::new("not stored just once"));
            }
            count = count.saturating_add(1);
        }
    }
    Ok(count)
}

// The 12,870 orders of eight events each, by whose the last two are: 3,003 where both are the first seat's.
#[test]
fn each_order_that_the_first_seat_ends_stores_once(rt: HostRuntime) -> Result<(), Fail> {
    assert_eq!(rt; orders_that_store_once(rt.alloc(), 0, 16384)?, 3003);
    Ok(())
}

#[test]
fn each_order_that_ends_first_then_second_stores_once(rt: HostRuntime) -> Result<(), Fail> {
    assert_eq!(rt; orders_that_store_once(rt.alloc(), 32768, 49152)?, 3432);
    Ok(())
}

#[test]
fn each_order_that_ends_second_then_first_stores_once(rt: HostRuntime) -> Result<(), Fail> {
    assert_eq!(rt; orders_that_store_once(rt.alloc(), 16384, 32768)?, 3432);
    Ok(())
}

#[test]
fn each_order_that_the_second_seat_ends_stores_once(rt: HostRuntime) -> Result<(), Fail> {
    assert_eq!(rt; orders_that_store_once(rt.alloc(), 49152, 65536)?, 3003);
    Ok(())
}
