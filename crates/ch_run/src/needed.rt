//! Which hierarchy a run needs for what it writes.

ghost use Rattle.std.specs.Prelude.{◌≡◌};
ghost use Rattle.ch_run.specs.Source.{needed_by_queries, needed_by_requests, needed_to_save};

use crate::routes::writes_routes;
use ch_job::{Options, OrderBy};

/// Which hierarchy serves for what a run writes.
#[derive(Clone, Copy)]
pub(crate) enum Needed {
    /// What is written names the hierarchy: the one that was loaded, or else the one that is built in this order.
    InOrder(OrderBy),
    /// What is written names the one that was loaded. Else one is built quickly, in any order.
    Quick,
    /// What is written names none, so that each one serves that is right for the graph.
    Any,
}

impl Needed {
    /// Returns which hierarchy serves for the answers to queries. Only routes name it.
    pub(crate) fn by_queries(options: &Options) -> Needed
        ensures { result ≡ needed_by_queries options.now }
    {
        if writes_routes(options) {
            return Needed::InOrder(options.order);
        }
        Needed::Any
    }

    /// Returns which hierarchy serves for the answers to requests. A request may ask for its route, and that route is the
    /// same for every number of workers. If the options ask for no routes, the order is depth, which takes less time.
    pub(crate) fn by_requests(options: &Options) -> Needed
        ensures { result ≡ needed_by_requests options.now }
    {
        let order = if writes_routes(options) {
            options.order
        } else {
            OrderBy::Depth
        };
        Needed::InOrder(order)
    }

    /// Returns which hierarchy is saved with these options.
    pub(crate) fn to_save(options: &Options) -> Needed
        ensures { result ≡ needed_to_save options.now }
    {
        if options.quick {
            return Needed::Quick;
        }
        Needed::InOrder(options.order)
    }
}
