//! The jobs of workers that write answers and the rows of a table. Each line is written by the worker that found what it says.
use super::lines::LineJob;
use ch_contract::Hierarchy;
use ch_query::{QueryJob, Scratch, Sides, answer_one, answer_with_route};
use ch_rows::RowJob;
use ch_text::{push_answer, push_row};
use std::alloc::{AllocError, Global};
use std::marker::Model;

/// The job that writes the answers to queries, with routes or without.
impl LineJob for QueryJob<'_> {
    ghost use Rattle.std.specs.Prelude.{◌≡◌, ◌<◌};
    ghost use Rattle.ch_hierarchy.specs.Hierarchy.{nodes_of};
    ghost use Rattle.ch_run.specs.Lines.{AreReplyLines};

    type Item = (u32, u32);

    type Room = Scratch;

    ghost takes = { λ task query. (query.0 < nodes_of task.hierarchy) × (query.1 < nodes_of task.hierarchy) };

    ghost lines = { λ task query lines. AreReplyLines task.hierarchy task.routes query lines };

    ghost clean = { λ task scratch. scratch ≡ nodes_of task.hierarchy };

    fn room(&self, alloc: Global) -> Result<Scratch, AllocError> {
        Scratch::new(alloc, self.hierarchy.nodes())
    }

    fn push(
        &self,
        alloc: Global,
        room: &mut Scratch,
        item: &(u32, u32),
        text: &mut Vec<u8>,
    ) -> Result<(), AllocError> {
        let answer = answer_one(alloc, self.hierarchy, room, *item, self.routes)?;
        push_answer(text, &answer)
    }
}

/// The job that writes answers with routes alone. Its workers have no room for distances, which would take half as much memory
/// again.
#[derive(Drop)]
pub(crate) struct RouteLines<'a> {
    pub(crate) hierarchy: &'a Hierarchy,
}

impl<'a> Model for RouteLines<'a> {
    ghost use Rattle.ch_hierarchy.specs.Hierarchy.{LevelsAndLegs};
    ghost use Rattle.ch_query.specs.Distance.{IsKeptForSome};

    ghost Value = { LevelsAndLegs };

    ghost view = { λ job. job.hierarchy.now };

    ghost invariant = { λ job. IsKeptForSome job.hierarchy.now };
}

impl LineJob for RouteLines<'_> {
    ghost use Rattle.std.specs.Prelude.{◌≡◌, ◌<◌, true};
    ghost use Rattle.ch_hierarchy.specs.Hierarchy.{nodes_of};
    ghost use Rattle.ch_run.specs.Lines.{AreReplyLines};

    type Item = (u32, u32);

    type Room = Sides;

    ghost takes = { λ H query. (query.0 < nodes_of H) × (query.1 < nodes_of H) };

    ghost lines = { λ H query lines. AreReplyLines H true query lines };

    ghost clean = { λ H sides. sides ≡ nodes_of H };

    fn room(&self, alloc: Global) -> Result<Sides, AllocError> {
        Sides::new(alloc, self.hierarchy.nodes())
    }

    fn push(
        &self,
        alloc: Global,
        room: &mut Sides,
        item: &(u32, u32),
        text: &mut Vec<u8>,
    ) -> Result<(), AllocError> {
        let answer = answer_with_route(alloc, self.hierarchy, room, *item)?;
        push_answer(text, &answer)
    }
}

/// The job that writes the rows of a table.
pub(crate) struct RowTexts;

impl RowJob for RowTexts {
    ghost use Rattle.std.specs.Prelude.{◌≡◌, flat_map};
    ghost use Rattle.std.specs.List.{zip};
    ghost use Rattle.ch_text.specs.TableText.{row_text};

    type Out = Vec<u8>;

    ghost meaning = { λ job sources rows text. text.items ≡ flat_map row_text (zip sources rows) };

    fn start(&self, alloc: Global) -> Vec<u8> {
        Vec::new(alloc)
    }

    fn add(
        &self,
        _alloc: Global,
        gathered: &mut Vec<u8>,
        source: u32,
        cells: &[Option<u64>],
    ) -> Result<(), AllocError> {
        push_row(gathered, source, cells)
    }
}
