//! Requests that come in parts, and a line that comes byte by byte.
use crate::again::again;
use ch_read::{Asked, MOST_LINE, Request, RequestError, RequestReader};
use std::alloc::{AllocError, Global};
use std::test::Fail;

/// Asks for the next request, a second time if the first call was refused memory.
fn next(
    alloc: Global,
    reader: &mut RequestReader,
    ended: bool,
) -> Result<Option<Asked>, RequestError> {
    match reader.next(alloc, ended) {
        Err(RequestError::NoMemory) => reader.next(alloc, ended),
        given => given,
    }
}

/// A request of each kind and a new weight, cut into two parts. The last line has no end.
const PARTS: [&[u8]; 2] = [
    b"q 1 3\nr 1 3\nc\nt 1 1 8\ns 4\ns ",
    b"5\np 2 0\ns 7\ns 7\nw 1\na 1 3 8\nt 0 0\nn 9 0\nn 1",
];

/// It holds if any one request for memory is refused. The call that is refused answers that memory ran out.
/// Made again, it goes on as with enough memory.
#[test]
fn requests_come_refused_in_turn(rt: HostRuntime) -> Result<(), Fail> {
    let alloc = rt.alloc();
    let mut reader = RequestReader::new(alloc, 9);
    let mut given = 0u32;
    for part in PARTS {
        again!(reader.feed(part));
        for _ in 0..5 {
            let is_given = next(alloc, &mut reader, false)?.is_some();
            given = given.saturating_add(u32::from(is_given));
        }
    }
    assert_eq!(rt; given, 7);
    let last = next(alloc, &mut reader, true)?;
    assert!(rt; matches!(last, Some(Asked::Request(Request::Near(0, None)))));
    Ok(())
}

/// The search for the end of an unfinished line goes on where the last search ended. So the time is linear
/// in the number of bytes. A line of [`MOST_LINE`] bytes is read.
#[test]
fn a_longest_line_comes_byte_by_byte(rt: HostRuntime) -> Result<(), Fail> {
    let alloc = rt.alloc();
    let mut reader = RequestReader::new(alloc, 9);
    for _ in 0..MOST_LINE {
        reader.feed(b"c")?;
        assert!(rt; reader.next(alloc, false)?.is_none());
    }
    reader.feed(b"\nq 1 3\n")?;
    assert!(rt; reader.next(alloc, false)?.is_some());
    Ok(())
}

/// The reader moves at most as many bytes as it drops. So the time is linear in the number of bytes.
#[test]
fn bytes_come_between_many_requests(rt: HostRuntime) -> Result<(), Fail> {
    let alloc = rt.alloc();
    let mut reader = RequestReader::new(alloc, 9);
    for _ in 0..200_000 {
        reader.feed(b"q 1 3\n")?;
    }
    for _ in 0..200_000 {
        assert!(rt; reader.next(alloc, false)?.is_some());
        reader.feed(b"\n")?;
    }
    Ok(())
}
