//! The options of the tools, each once.
//!
//! Clap's arguments and `--help` are made from these rows, and completion and manual pages from `--help`.
//! `packaging/options.py` makes from them what docs/REFERENCE.md and packaging/telling say of options. The comment of a
//! row is its cell `meaning` there. If the help of an option differs from tool to tool, the option has a row for each
//! help, and the comment of the first counts.

ghost use Rattle.std.specs.Prelude.{◌≡◌};
ghost use Rattle.ch_words.specs.Line.{ask_rules, dist_rules, near_rules, save_rules, shared_rules, table_rules};
ghost use Rattle.ch_words.specs.Options.{rules_of};

use ch_graph::limits::{MOST_HOPS, MOST_LISTED, MOST_WEIGHT};
use ch_work::limits::{MOST_PIECE, MOST_WORKERS};

/// What follows an option on the command line.
#[derive(Clone, Copy, Debug, PartialEq, Eq)]
pub(crate) enum Value {
    /// Nothing: the option is a flag.
    Nothing,
    /// The name of a file.
    File,
    /// A number from 1 to `most`. If the option is left out, it is `default`.
    Number {
        name: &'static str,
        most: u32,
        default: &'static str,
    },
    /// A number from `least` to `most`. If the option is left out, there is none.
    Limit {
        name: &'static str,
        least: u64,
        most: u64,
    },
}

/// An option of a tool.
#[derive(Clone, Copy, Debug, PartialEq, Eq)]
pub(crate) struct Row {
    /// The name, without the two hyphens.
    pub name: &'static str,
    pub value: Value,
    /// What `--help` says. The default of a limit and of a file comes last, in brackets.
    pub help: &'static str,
}

/// Write the route after each distance; in `ask` after that of each `q`.
const ROUTES: Row = Row {
    name: "routes",
    value: Value::Nothing,
    help: "After each distance, write its route: `r K`, then K lines `a U V W`, the arcs in order",
};

/// Build the hierarchy in depth order, which takes [half the time](#orders).
const DEEP: Row = Row {
    name: "deep",
    value: Value::Nothing,
    help: "Build the hierarchy in depth order, which halves the time of building and makes queries and tables \
        faster. Of equally good routes, another may be written",
};

/// `--deep` for a hierarchy that gives routes.
const DEEP_FOR_ROUTES: Row = Row {
    name: "deep",
    value: Value::Nothing,
    help: "With --routes, build the hierarchy in depth order, which halves the time of building. Of equally good \
        routes, another may be written",
};

/// Build the hierarchy in an [order](#orders) that takes the least time to find. Cannot be combined with `--deep`.
const QUICK: Row = Row {
    name: "quick",
    value: Value::Nothing,
    help: "Build the hierarchy in an order that takes the least time to find. Of equally good routes, another may be \
        written. Cannot be combined with --deep",
};

/// Answer without a hierarchy, by rounds of relaxation over all arcs (Bellman 1958, Ford 1956). Writes no routes; all
/// options but `--progress` have no effect.
const PLAIN: Row = Row {
    name: "plain",
    value: Value::Nothing,
    help: "Answer without a hierarchy, by rounds of relaxation over all arcs. All other options but --progress \
        then have no effect",
};

/// Leave out distances above R: such a cell of a table is `-`, and a near row ends before it. A small R saves time. In
/// `ask`: for requests without a limit of their own.
const WITHIN: Row = Row {
    name: "within",
    value: Value::Limit {
        name: "R",
        least: 0,
        most: MOST_WEIGHT,
    },
    help: "Leave out distances above R, from 0 to 1152921504606846976: such a cell of a table is - \
        [default: no limit]",
};

/// `--within` for near rows.
const WITHIN_OF_ROWS: Row = Row {
    name: "within",
    value: Value::Limit {
        name: "R",
        least: 0,
        most: MOST_WEIGHT,
    },
    help: "Write only targets at a distance of at most R, from 0 to 1152921504606846976 [default: no limit]",
};

/// Write at most the K nearest targets of each source.
const COUNT: Row = Row {
    name: "count",
    value: Value::Limit {
        name: "K",
        least: 1,
        most: MOST_LISTED,
    },
    help: "Write at most the K nearest targets of each source, from 1 to 65536 [default: all]",
};

/// Take the distances from the targets to the source, in place of those from the source to the targets.
const FROM: Row = Row {
    name: "from",
    value: Value::Nothing,
    help: "Take the distances from the targets to the source, in place of those from the source to the targets",
};

/// Take each node of the graph as a source, in order, in place of SOURCES.
const ALL: Row = Row {
    name: "all",
    value: Value::Nothing,
    help: "Take each node of the graph as a source, in order, in place of SOURCES",
};

/// Read the hierarchy from FILE and check it, in place of building one. `--deep`, `--quick` and `--hops` then have no
/// effect.
const SAVED: Row = Row {
    name: "saved",
    value: Value::File,
    help: "Read the hierarchy from FILE and check it, in place of building one. `chtab save` or any other program \
        wrote it for this graph: one of another graph is refused, often by `saved line 1: size too large`. \
        Options on how to build one then have no effect [default: none]",
};

/// Build the hierarchy in an order [like that of FILE](#orders), which takes half to two thirds of the time. Cannot be
/// combined with `--saved`, `--deep` or `--quick`.
const LIKE: Row = Row {
    name: "like",
    value: Value::File,
    help: "Build the hierarchy in an order like that of FILE, which takes half to two thirds of the time. FILE is a \
        saved hierarchy of a graph with as many nodes and any arcs, or only its lines `p` and `o`. Cannot be \
        combined with --saved, --deep or --quick [default: none]",
};

/// With `--like` alone: order the last P per cent of the nodes afresh, in depth order.
const FRESH: Row = Row {
    name: "fresh",
    value: Value::Limit {
        name: "P",
        least: 0,
        most: 100,
    },
    help: "With --like, order the last P per cent of the nodes afresh, by depth, from 0 to 100 [default: 5]",
};

/// Customize the hierarchy in a [nested dissection order](#orders), which the run finds, or with `--like` in the very
/// order of FILE. Cannot be combined with `--saved`, `--fresh`, `--deep` or `--quick`.
const CUSTOMIZABLE: Row = Row {
    name: "customizable",
    value: Value::Nothing,
    help: "Customize the hierarchy in a nested dissection order, or with --like in the very order of FILE. If the \
        order has more than 40 triangles a node, the hierarchy is built quickly. Cannot be combined with --saved, \
        --fresh, --deep or --quick",
};

/// How many threads share the work.
const WORKERS: Row = Row {
    name: "workers",
    value: Value::Number {
        name: "N",
        most: MOST_WORKERS,
        default: "1",
    },
    help: "Share the work among N threads, from 1 to 64: no answer depends on N",
};

/// How many queries, sources or nodes a thread takes at a time.
const PIECE: Row = Row {
    name: "piece",
    value: Value::Number {
        name: "K",
        most: MOST_PIECE,
        default: "64",
    },
    help: "How many queries, sources or nodes a thread takes at a time, from 1 to 1048576",
};

/// The most edges of a *witness*: another path between two nodes, which makes a shortcut needless because it costs no
/// more. Changes the number of shortcuts.
const HOPS: Row = Row {
    name: "hops",
    value: Value::Number {
        name: "H",
        most: MOST_HOPS,
        default: "5",
    },
    help: "The most edges of a witness path while the hierarchy is built, from 1 to 16",
};

/// Report on standard error how far the run is. On a terminal this happens without the option, once a stage takes more
/// than a second.
const PROGRESS: Row = Row {
    name: "progress",
    value: Value::Nothing,
    help: "Report on standard error how far the run is. On a terminal this happens without the option, \
        once a stage takes more than a second",
};

/// Returns the options of `dist` that not all tools have.
pub(crate) fn dist_options() -> [Row; 4]
    ensures { rules_of result ≡ dist_rules }
{
    [PLAIN, ROUTES, DEEP_FOR_ROUTES, SAVED]
}

/// Returns the options of `table` that not all tools have.
pub(crate) fn table_options() -> [Row; 2]
    ensures { rules_of result ≡ table_rules }
{
    [WITHIN, SAVED]
}

/// Returns the options of `near` that not all tools have.
pub(crate) fn near_options() -> [Row; 5]
    ensures { rules_of result ≡ near_rules }
{
    [COUNT, WITHIN_OF_ROWS, FROM, ALL, SAVED]
}

/// Returns the options of `save` that not all tools have.
pub(crate) fn save_options() -> [Row; 2]
    ensures { rules_of result ≡ save_rules }
{
    [DEEP, QUICK]
}

/// Returns the options of `ask` that not all tools have.
pub(crate) fn ask_options() -> [Row; 4]
    ensures { rules_of result ≡ ask_rules }
{
    [ROUTES, DEEP_FOR_ROUTES, WITHIN, SAVED]
}

/// Returns the options of all tools.
pub(crate) fn shared_options() -> [Row; 7]
    ensures { rules_of result ≡ shared_rules }
{
    [LIKE, FRESH, CUSTOMIZABLE, WORKERS, PIECE, HOPS, PROGRESS]
}
