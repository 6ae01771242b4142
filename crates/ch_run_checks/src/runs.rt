//! Each kind of run: with every plan, and with each request for memory refused.

use crate::files::{Asked, Files, run};
use ch_run::{Direction, HopBound, Options, OrderBy, Plan, RunFault};
use std::alloc::AllocError;
use std::test::Fail;

pub const BY_HIERARCHY: Options = Options {
    plain: false,
    routes: false,
    hops: HopBound { number: 5 },
    order: OrderBy::Difference,
    quick: false,
    within: None,
    count: None,
    direction: Direction::To,
};

pub const PLAIN: Options = Options {
    plain: true,
    ..BY_HIERARCHY
};

const WITH_ROUTES: Options = Options {
    routes: true,
    ..BY_HIERARCHY
};

/// Three nodes on a line, sources and targets on it, and its table.
pub const LINE: &[u8] = b"p sp 3 2\na 1 2 4\na 2 3 5\n";

pub const SOURCES: &[u8] = b"p aux sp ss 3\ns 1\ns 1\ns 3\n";

pub const TARGETS: &[u8] = b"p aux sp ss 2\ns 3\ns 2\n";

const TABLE: &[u8] = b"t 1 9 4\nt 1 9 4\nt 3 0 -\n";

/// The targets that are near each node of the line.
const NEAR_EACH: &[u8] = b"n 1 2 2 4 3 9\nn 2 2 2 0 3 5\nn 3 1 3 0\n";

/// A star of four nodes, with the first in the middle. A query between two of the others, and its answer
/// with its route.
pub const STAR: &[u8] = b"p sp 4 6\na 1 2 1\na 2 1 1\na 1 3 1\na 3 1 1\na 1 4 1\na 4 1 1\n";

pub const ACROSS: &[u8] = b"p aux sp p2p 1\nq 3 4\n";

const STAR_ROUTE: &[u8] = b"d 3 4 2\nr 2\na 3 1 1\na 1 4 1\n";

/// A source and targets on the star, one of them twice, and the row of the source. The source is one of
/// four nodes, so the run searches from it and makes no sweep.
const END: &[u8] = b"p aux sp ss 1\ns 3\n";

const TWICE: &[u8] = b"p aux sp ss 3\ns 4\ns 1\ns 4\n";

const NEAR_END: &[u8] = b"n 3 3 1 1 4 2 4 2\n";

/// The hierarchies of these two graphs.
pub const LINE_SAVED: &[u8] = b"p ch 3 2\no 1\no 2\no 3\nl 1 2 4 1 0\nl 2 3 5 1 0\n";

const STAR_SAVED: &[u8] =
    b"p ch 4 8\no 2\no 1\no 3\no 4\nl 2 1 1 1 0\nl 1 2 1 1 0\nl 1 3 1 1 0\nl 1 4 1 1 0\nl 3 1 1 1 0\nl 4 1 1 1 0\nl 3 4 2 2 1\nl 4 3 2 2 1\n";

/// The table as requests, and the query as a request. Neither ends with a line feed.
const TABLE_ASKED: &[u8] = b"t 3 2\ns 1\ns 1\ns 3\ns 3\ns 2";

const QUERY_ASKED: &[u8] = b"q 3 4";

/// The near row of a node among two places, and its text.
const NEAR_ASKED: &[u8] = b"p 2 0\ns 3\ns 2\nn 1";

const NEAR_ROW: &[u8] = b"n 1 2 2 4 3 9\n";

/// Runs of each kind, with routes, and their texts. Each run over requests has one answer, which is written
/// at its end.
const EACH_RUN: [(Files<'static>, &[u8]); 12] = [
    (
        Files {
            graph: STAR,
            saved: None,
            asked: Asked::Answers(ACROSS),
        },
        STAR_ROUTE,
    ),
    (
        Files {
            graph: LINE,
            saved: None,
            asked: Asked::Table(SOURCES, TARGETS),
        },
        TABLE,
    ),
    (
        Files {
            graph: STAR,
            saved: None,
            asked: Asked::Hierarchy,
        },
        STAR_SAVED,
    ),
    (
        Files {
            graph: STAR,
            saved: Some(STAR_SAVED),
            asked: Asked::Answers(ACROSS),
        },
        STAR_ROUTE,
    ),
    (
        Files {
            graph: LINE,
            saved: Some(LINE_SAVED),
            asked: Asked::Table(SOURCES, TARGETS),
        },
        TABLE,
    ),
    (
        Files {
            graph: STAR,
            saved: None,
            asked: Asked::Near(END, TWICE),
        },
        NEAR_END,
    ),
    (
        Files {
            graph: LINE,
            saved: None,
            asked: Asked::NearAll(TARGETS),
        },
        NEAR_EACH,
    ),
    (
        Files {
            graph: STAR,
            saved: Some(STAR_SAVED),
            asked: Asked::Near(END, TWICE),
        },
        NEAR_END,
    ),
    (
        Files {
            graph: LINE,
            saved: Some(LINE_SAVED),
            asked: Asked::NearAll(TARGETS),
        },
        NEAR_EACH,
    ),
    (
        Files {
            graph: STAR,
            saved: None,
            asked: Asked::Requests(QUERY_ASKED),
        },
        STAR_ROUTE,
    ),
    (
        Files {
            graph: LINE,
            saved: Some(LINE_SAVED),
            asked: Asked::Requests(TABLE_ASKED),
        },
        TABLE,
    ),
    (
        Files {
            graph: LINE,
            saved: Some(LINE_SAVED),
            asked: Asked::Requests(NEAR_ASKED),
        },
        NEAR_ROW,
    ),
];

#[test]
fn no_plan_changes_a_byte(rt: HostRuntime) -> Result<(), Fail> {
    for workers in [1, 2, 64] {
        for size in [1, 1000] {
            let plan = Plan::new(workers, size, size);
            for (files, text) in EACH_RUN {
                let (result, output) = run(&rt, rt.alloc(), &files, &WITH_ROUTES, &plan)?;
                assert_eq!(rt; result, Ok(()));
                assert_eq!(rt; output.bytes(), text);
            }
        }
    }
    Ok(())
}

/// Makes a run, and makes it a second time if the first was refused memory. The first has then written
/// nothing.
macro_rules! again {
    ($rt:expr, $run:expr) => {
        match $run {
            Err(AllocError) => $run?,
            Ok((Err(RunFault::Memory), output)) => {
                assert!($rt; output.bytes().is_empty());
                $run?
            }
            Ok(ended) => ended,
        }
    };
}

#[test]
fn refused_in_turn(rt: HostRuntime) -> Result<(), Fail> {
    for workers in [1, 2] {
        let plan = Plan::new(workers, 1, 1);
        for (files, text) in EACH_RUN {
            let (result, output) = again!(rt, run(&rt, rt.alloc(), &files, &WITH_ROUTES, &plan));
            assert_eq!(rt; result, Ok(()));
            assert_eq!(rt; output.bytes(), text);
        }
    }
    Ok(())
}
