//! The numbers that the definitions name, as the contract of a function that does nothing.
ghost use Rattle.std.specs.Prelude.{◌≡◌, ◌^◌};
ghost use Rattle.ch_graph.specs.declared.limits.TheConstants.{MOST_NODES, MOST_ARCS, MOST_WEIGHT, MOST_SUM, MOST_QUERIES, MOST_LISTED, MOST_LEGS, MOST_PATH_ARCS, MOST_HOPS};
ghost use Rattle.ch_work.specs.declared.limits.TheConstants.{MOST_WORKERS, MOST_PIECE, MOST_CELLS, MOST_OFFER};

/// Proves the value of each constant that a definition takes from the code. The definitions themselves
/// have the exit statuses as numbers.
pub fn numbers()
    // of a graph
    ensures nodes { MOST_NODES ≡ 2 ^ 25 }
    ensures arcs { MOST_ARCS ≡ 2 ^ 27 }
    ensures weight { MOST_WEIGHT ≡ 2 ^ 60 }
    ensures sum { MOST_SUM ≡ 2 ^ 61 }

    // of the other files, and of requests
    ensures queries { MOST_QUERIES ≡ 2 ^ 24 }
    ensures listed { MOST_LISTED ≡ 65536 }
    ensures cells { MOST_CELLS ≡ 2 ^ 22 }
    ensures legs { MOST_LEGS ≡ 2 ^ 50 }
    ensures path_arcs { MOST_PATH_ARCS ≡ 2 ^ 50 }
    ensures offer { MOST_OFFER ≡ 2 ^ 61 }

    // of the options
    ensures hops { MOST_HOPS ≡ 16 }
    ensures workers { MOST_WORKERS ≡ 64 }
    ensures piece { MOST_PIECE ≡ 2 ^ 20 }
{}
