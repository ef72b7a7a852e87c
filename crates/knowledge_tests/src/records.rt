//! A shelf of records that are held and released.

use std::process::Abort;
use std::test::Fail;
use za_records::{Key, Shelf};

/// Releases a value that is there.
fn released(rt: &impl Abort, shelf: &mut Shelf<u8>, key: Key) -> Option<u8> {
    assert!(rt; shelf.has(key));
    shelf.release(key)
}

#[test]
fn last_release_gives_the_value_back(rt: HostRuntime) -> Result<(), Fail> {
    let mut shelf: Shelf<u8> = Shelf::new(rt.alloc(), 2)?;
    let key = shelf.put(7, 2);
    assert_eq!(rt; released(&rt, &mut shelf, key), None);
    assert_eq!(rt; shelf.live(), 1);
    assert_eq!(rt; released(&rt, &mut shelf, key), Some(7));
    assert_eq!(rt; shelf.live(), 0);
    drop(shelf);
    Ok(())
}

/// Holds the 8, which is held once, twice more, and releases it once.
fn assert_held(rt: &impl Abort, shelf: &mut Shelf<u8>, key: Key) {
    assert!(rt; shelf.has(key));
    assert!(rt; shelf.count(key) == 1);
    shelf.hold(key, 2);
    assert!(rt; shelf.count(key) == 3);
    shelf.release_one(key);
    assert_eq!(rt; shelf.count(key), 2);
    assert_eq!(rt; *shelf.get(key), 8);
}

#[test]
fn every_call_once(rt: HostRuntime) -> Result<(), Fail> {
    let mut shelf: Shelf<u8> = Shelf::new(rt.alloc(), 2)?;
    assert_eq!(rt; shelf.capacity(), 2);
    let first = shelf.put(7, 1);
    let second = shelf.put(8, 1);
    assert_held(&rt, &mut shelf, second);
    assert_eq!(rt; shelf.same(&8), Some(second));
    assert_eq!(rt; shelf.same(&9), None);
    assert_eq!(rt; released(&rt, &mut shelf, first), Some(7));
    assert_eq!(rt; (shelf.has(first), shelf.has(second)), (false, true));
    drop(shelf);
    Ok(())
}
