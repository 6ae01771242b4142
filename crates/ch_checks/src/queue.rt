//! Queues whose keys change.
use crate::again::again;
use ch_queue::KeyQueue;
use std::alloc::AllocError;
use std::test::Fail;

/// It holds if any one request for memory is refused. `new` answers `AllocError`, and a second call returns
/// the same queue as with enough memory.
#[test]
fn refused_in_turn(rt: HostRuntime) -> Result<(), Fail> {
    let mut queue = again!(KeyQueue::new(rt.alloc(), 4));
    assert!(rt; queue.is_empty());
    queue.set(0, 9u64);
    queue.set(3, 6);
    assert_eq!(rt; queue.pop(), Some((6, 3)));
    Ok(())
}
