//! Lists in one array: their values, and the room that they take.
ghost use Rattle.std.specs.Prelude.{◌≡◌, ◌<◌, length};

use crate::again::again;
use ch_lists::Lists;
use std::alloc::AllocError;
use std::process::Abort;
use std::test::Fail;

/// Inserts `value` at the front of a list, a second time if the first call is refused memory. A refusal
/// leaves the lists as they were.
fn insert_again<R: Abort>(rt: &R, lists: &mut Lists<u64>, list: u32, value: u64) -> Result<(), Fail>
    requires { list < length lists.old }
    ensures { length lists.new ≡ length lists.old }
{
    let len = lists.at(list).len();
    if lists.insert(list, 0, value).is_err() {
        assert_eq!(rt; lists.at(list).len(), len);
        lists.insert(list, 0, value)?;
    }
    Ok(())
}

/// Packs the lists, a second time if the first call is refused memory. A refusal leaves the lists and their
/// room as they were.
fn pack_again<R: Abort>(rt: &R, lists: &mut Lists<u64>) -> Result<(), Fail>
    ensures { length lists.new ≡ length lists.old }
{
    let room = lists.room();
    if lists.pack().is_err() {
        assert_eq!(rt; lists.room(), room);
        lists.pack()?;
    }
    Ok(())
}

/// It holds if any one request for memory is refused. The call that is refused answers `AllocError`. Made
/// again, it does the same as with enough memory.
///
/// Rooms of 2^32 values together are refused before any memory is taken.
#[test]
fn refused_in_turn(rt: HostRuntime) -> Result<(), Fail> {
    let mut lists = again!(Lists::with_rooms(rt.alloc(), &[1, 2], 0));
    for value in 0..6 {
        insert_again(&rt, &mut lists, 0, value)?;
        insert_again(&rt, &mut lists, 1, value + 6)?;
    }
    pack_again(&rt, &mut lists)?;
    assert_eq!(rt; lists.room(), 12);
    assert_eq!(rt; lists.at(0), [5, 4, 3, 2, 1, 0].as_slice());
    assert_eq!(rt; lists.at(1), [11, 10, 9, 8, 7, 6].as_slice());
    let large = Lists::with_rooms(rt.alloc(), &[u32::MAX, 1], 0u64);
    assert!(rt; matches!(large, Err(AllocError)));
    Ok(())
}
