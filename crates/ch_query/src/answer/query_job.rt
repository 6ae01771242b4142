//! The job that answers queries in scratches, with routes or without.
ghost use Rattle.std.specs.Prelude.{◌≡◌, ◌<◌};
ghost use Rattle.ch_hierarchy.specs.Hierarchy.{nodes_of};
ghost use Rattle.ch_query.specs.Replies.{IsReply};

use super::Answer;
use super::one::answer_one;
use crate::scratch::Scratch;
use ch_hierarchy::Hierarchy;
use ch_work::ListJob;
use std::alloc::{AllocError, Global};
use std::marker::Model;

/// The job that answers queries by a hierarchy, with routes or without.
#[derive(Drop)]
pub struct QueryJob<'a> {
    /// The hierarchy that answers the queries.
    pub hierarchy: &'a Hierarchy,
    /// Whether the answers have the arcs of their routes.
    pub routes: bool,
}

impl<'a> Model for QueryJob<'a> {
    ghost use Rattle.ch_query.specs.Distance.{IsKeptForSome};
    ghost use Rattle.ch_query.specs.Tasks.{Task};

    ghost Value = { Task };

    ghost view = { λ job. record { hierarchy = job.hierarchy.now; routes = job.routes } };

    ghost invariant = { λ job. IsKeptForSome job.hierarchy.now };
}

impl ListJob for QueryJob<'_> {
    type Item = (u32, u32);

    type Room = Scratch;

    type Out = Answer;

    ghost takes = { λ task query. (query.0 < nodes_of task.hierarchy) × (query.1 < nodes_of task.hierarchy) };

    ghost meaning = { λ task query answer. IsReply task.hierarchy task.routes query answer };

    ghost clean = { λ task scratch. scratch ≡ nodes_of task.hierarchy };

    fn room(&self, alloc: Global) -> Result<Scratch, AllocError> {
        Scratch::new(alloc, self.hierarchy.nodes())
    }

    fn value(
        &self,
        alloc: Global,
        room: &mut Scratch,
        item: &(u32, u32),
    ) -> Result<Answer, AllocError> {
        answer_one(alloc, self.hierarchy, room, *item, self.routes)
    }
}
