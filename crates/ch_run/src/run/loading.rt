//! A graph, and a saved hierarchy or an order if there is one. Both are read to their end and checked.
ghost use Rattle.std.specs.Prelude.{◌≡◌, ◌<◌, ℕ, Some, IfOk, IfErr, IsOkAnd, MatchResult, ⊤};
ghost use Rattle.ch_graph.specs.Saved.{OrderAndLegs};
ghost use Rattle.ch_hierarchy.specs.Hierarchy.{LevelsAndLegs};
ghost use Rattle.ch_hierarchy.specs.Kept.{IsKept};
ghost use Rattle.ch_job.specs.Job.{source_map};
ghost use Rattle.ch_read.specs.Requests.{AreNewWeights};
ghost use Rattle.ch_run.specs.Frames.{IsFrameFor, IsFrameFrom};
ghost use Rattle.ch_run.specs.Loaded.{IsRight, IsWeighed, IsWeighingFault};
ghost use Rattle.ch_run.specs.Run.{reading, ReadsAll};
ghost use Rattle.ch_read.specs.Names.{NamesOrder, NamesSaved};
ghost use Rattle.ch_read.specs.declared.form.Form.TheVariants as Form;
ghost use Rattle.ch_graph.specs.Graph.{IsWithinLimits};
ghost use Rattle.ch_hierarchy.specs.Saved.{NamesKept};
ghost use Rattle.ch_run.specs.Customized.{IsUncustomizable, NamesCustomized};
ghost use Rattle.ch_run.specs.Story.{EndsAt, IsOrderRefusedOn, IsRefused, IsSavedRefusedOn, Loads, NamesLike};
ghost use Rattle.ch_run.specs.Source.{IsServing, ReadsSaved, source_reading};

use super::inputs::{bytes_from, graph_from};
use crate::building::{build, build_in_order, customize_dissected, customize_in};
use crate::fault::{RunFault, Which};
use crate::frame::Frame;
use crate::needed::Needed;
use crate::plan::{Crew, Gate, Stage};
use crate::weighing::{WeighingError, weigh};
use ch_contract::{CheckError, Hierarchy, HopBound, Percent};
use ch_graph::{Graph, Saved};
use ch_job::Source;
use ch_order::{LikeError, OrderError};
use ch_query::check;
use ch_read::{NewWeights, read_order_by, read_saved_by};
use ch_text::Input;
use std::alloc::AllocError;
use std::marker::Model;
use std::thread::Threads;

/// A graph, and the hierarchy that is right for it, if one was read, or built like an order that was read. If it is
/// customized, its frame is kept.
#[derive(Drop)]
pub(crate) struct Loaded {
    graph: Graph,
    saved: Option<Hierarchy>,
    frame: Option<Frame>,
}

impl Model for Loaded {
    ghost use Rattle.ch_run.specs.Loaded.{GraphAndSaved, IsRightIfSaved};

    ghost Value = { GraphAndSaved };

    ghost view = { λ loaded. record { graph = loaded.graph; saved = loaded.saved; frame = loaded.frame } };

    ghost invariant = { λ loaded. IsRightIfSaved (record { graph = loaded.graph; saved = loaded.saved; frame = loaded.frame }) };
}

/// A graph, and a hierarchy that is right for it. If new weights can be customized, their frame is kept.
#[derive(Drop)]
pub(crate) struct Checked {
    graph: Graph,
    hierarchy: Hierarchy,
    frame: Option<Frame>,
}

impl Model for Checked {
    ghost use Rattle.ch_run.specs.Loaded.{GraphAndHierarchy, IsRight};

    ghost Value = { GraphAndHierarchy };

    ghost view = { λ checked. record { graph = checked.graph; hierarchy = checked.hierarchy; frame = checked.frame } };

    ghost invariant = { λ checked. IsRight (record { graph = checked.graph; hierarchy = checked.hierarchy; frame = checked.frame }) };
}

impl Checked {
    /// Returns the graph.
    pub(crate) fn graph(&self) -> &Graph
        ensures graph { result.now ≡ self.now.graph }
        ensures limits { IsWithinLimits self.now.graph }
    {
        &self.graph
    }

    /// Returns the hierarchy.
    pub(crate) fn hierarchy(&self) -> &Hierarchy
        ensures hierarchy { result.now ≡ self.now.hierarchy }
        ensures right { IsRight self.now }
    {
        &self.hierarchy
    }

    /// Returns the graph with new weights, and the hierarchy that is customized for them over the kept frame. The memory of
    /// the earlier hierarchy is free by then.
    ///
    /// # Errors
    /// `FixedAt` if there is no frame, `NoArcAt` with the line of the first new weight that is for no arc, and `Memory` if
    /// there is not enough memory.
    pub(crate) fn weighed<R: Threads + Sync, G: Gate>(
        self,
        crew: &Crew<'_, R, G>,
        weights: &NewWeights,
    ) -> Result<Checked, RunFault>
        requires weights { AreNewWeights self.graph.nodes weights.now }
        ensures weighed { IfOk result (IsWeighed self weights.now) }
        ensures refused { IfErr result (IsWeighingFault self weights.now) }
    {
        let Checked {
            graph,
            hierarchy,
            frame,
        } = self;
        let Some(frame) = frame else {
            return Err(RunFault::FixedAt(weights.line()));
        };
        let graph = match weigh(crew.alloc, &graph, weights.listed()) {
            Ok(graph) => graph,
            Err(WeighingError::NoArc(line)) => return Err(RunFault::NoArcAt(line)),
            Err(WeighingError::NoMemory) => return Err(RunFault::Memory),
        };
        drop(hierarchy);
        let hierarchy = frame.hierarchy(crew, &graph)?;
        Ok(Checked {
            graph,
            hierarchy,
            frame: Some(frame),
        })
    }
}

/// Reads a graph to its end. Then it reads the saved hierarchy if there is one, and checks it for the graph. Or it
/// reads an order, and builds the hierarchy in an order like it, or customizes it in that order or in one that it finds.
/// In the place of one that is built in an order, another serves if `needed` says so, which takes less time.
pub(crate) fn loaded_from<R: Threads + Sync, I: Input, S: Input + Drop, G: Gate>(
    crew: &Crew<'_, R, G>,
    graph: &mut I,
    source: &mut Source<S>,
    needed: Needed,
) -> Result<Loaded, RunFault>
    ensures went { Loads (reading I.read_gives graph.old graph.new) (source_reading S.read_gives source.old source.new) (source.new ≡ source.old) result ⊤ (λ g h.
        IsOkAnd result (λ loaded. (loaded.graph ≡ g) × ((hops : ℕ) (K : LevelsAndLegs) → IsServing needed hops g loaded.saved K → IsServing needed hops g h K))) }
    ensures frame { IfOk result (λ loaded. IsFrameFrom (source_reading S.read_gives source.old source.new) loaded.graph.nodes loaded.frame) }
    ensures same_graph { I.origin graph.new ≡ I.origin graph.old }
    ensures same_source { source_map S.origin source.new ≡ source_map S.origin source.old }
{
    crew.gate.watch(Stage::Reading, 0, files_of(source));
    let graph = graph_from(crew, graph)?;
    let (saved, frame) = match source {
        Source::Built => (None, None),
        Source::Saved(saved) => (Some(checked_from(crew, saved, &graph)?), None),
        Source::Like { order, fresh, hops } => {
            let hierarchy = built_from(crew, order, &graph, *fresh, *hops, needed)?;
            (Some(hierarchy), None)
        }
        Source::Customized { order, hops } => {
            let (frame, hierarchy) = customized_from(crew, order, &graph, *hops)?;
            (Some(hierarchy), Some(frame))
        }
        Source::Dissected { hops } => {
            let (frame, hierarchy) = customize_dissected(crew, &graph, *hops)?;
            (Some(hierarchy), Some(frame))
        }
    };
    Ok(Loaded {
        graph,
        saved,
        frame,
    })
}

/// Returns how many inputs loading reads.
fn files_of<S: Drop>(source: &Source<S>) -> u32 {
    match source {
        Source::Built | Source::Dissected { .. } => 1,
        Source::Saved(_) | Source::Like { .. } | Source::Customized { .. } => 2,
    }
}

/// Reads a saved hierarchy to its end, and checks it for the graph.
#[tactic(auto, using(crate::proofs::Owed::own_as))]
fn checked_from<R: Threads + Sync, S: Input, G: Gate>(
    crew: &Crew<'_, R, G>,
    saved: &mut S,
    graph: &Graph,
) -> Result<Hierarchy, RunFault>
    ensures value { IfOk result (λ H. ReadsAll (reading S.read_gives saved.old saved.new) (λ bytes. (s : OrderAndLegs) × NamesSaved bytes graph.now.nodes s × NamesKept graph.now s H)) }
    ensures kept { IfOk result (IsKept graph.now) }
    ensures same { S.origin saved.new ≡ S.origin saved.old }
    ensures ends { IfErr result (EndsAt Which.Saved (reading S.read_gives saved.old saved.new) (IsSavedRefusedOn graph.now)) }
{
    let saved = saved_from(crew, saved, graph)?;
    match check(crew, graph, saved) {
        Ok(hierarchy) => Ok(hierarchy),
        Err(CheckError::Fault(fault)) => Err(RunFault::Check(fault)),
        Err(CheckError::NoMemory) => Err(RunFault::Memory),
    }
}

/// Reads an order to its end, and builds the hierarchy of the graph in an order like it.
#[tactic(auto, using(crate::proofs::Owed::own_as, crate::proofs::Loading::lines_refused))]
fn built_from<R: Threads + Sync, S: Input, G: Gate>(
    crew: &Crew<'_, R, G>,
    order: &mut S,
    graph: &Graph,
    fresh: Percent,
    hops: HopBound,
    needed: Needed,
) -> Result<Hierarchy, RunFault>
    ensures value { IfOk result (λ K. ReadsAll (reading S.read_gives order.old order.new) (λ bytes. (H : LevelsAndLegs) × NamesLike graph.now fresh.number hops.number bytes H × IsServing needed hops.number graph.now (Some H) K)) }
    ensures kept { IfOk result (IsKept graph.now) }
    ensures same { S.origin order.new ≡ S.origin order.old }
    ensures ends { IfErr result (EndsAt Which.Order (reading S.read_gives order.old order.new) (IsOrderRefusedOn graph.now fresh.number hops.number)) }
{
    let given = order_from(crew, order, graph)?;
    match build_in_order(crew, graph, &given, fresh, hops, needed) {
        Ok(hierarchy) => Ok(hierarchy),
        Err(LikeError::Order) => Err(RunFault::Order),
        Err(LikeError::Crowded(node)) => Err(RunFault::Crowded(node)),
        Err(LikeError::NoMemory) => Err(RunFault::Memory),
    }
}

/// Reads an order to its end, and customizes the hierarchy of the graph in it.
#[tactic(auto, using(crate::proofs::Owed::own_as, crate::proofs::Loading::lines_unfit))]
fn customized_from<R: Threads + Sync, S: Input, G: Gate>(
    crew: &Crew<'_, R, G>,
    order: &mut S,
    graph: &Graph,
    hops: HopBound,
) -> Result<(Frame, Hierarchy), RunFault>
    ensures value { IfOk result (λ made. ReadsAll (reading S.read_gives order.old order.new) (λ bytes. NamesCustomized graph.now hops.number bytes made.1)) }
    ensures order { IfOk result (λ made. ReadsAll (reading S.read_gives order.old order.new) (λ bytes. (s : OrderAndLegs) × NamesSaved bytes graph.now.nodes s × (s.order ≡ made.0.order))) }
    ensures hops { IfOk result (λ made. made.0.hops ≡ hops.number) }
    ensures fits { IfOk result (λ made. IsFrameFor graph.now made.0) }
    ensures kept { IfOk result (λ made. IsKept graph.now made.1) }
    ensures same { S.origin order.new ≡ S.origin order.old }
    ensures ends { IfErr result (EndsAt Which.Order (reading S.read_gives order.old order.new) (IsUncustomizable graph.now)) }
{
    let given = order_from(crew, order, graph)?;
    match customize_in(crew, graph, given, hops) {
        Ok(made) => Ok(made),
        Err(OrderError::Order) => Err(RunFault::Order),
        Err(OrderError::NoMemory) => Err(RunFault::Memory),
    }
}

impl Loaded {
    /// Returns the graph.
    pub(crate) fn graph(&self) -> &Graph
        ensures graph { result.now ≡ self.now.graph }
        ensures limits { IsWithinLimits self.now.graph }
    {
        &self.graph
    }

    /// Returns the graph with a hierarchy that serves: the one that was loaded, or one that it builds, where a witness has at
    /// most `hops` legs.
    ///
    /// # Errors
    /// `AllocError` if there is no memory.
    pub(crate) fn checked<R: Threads + Sync, G: Gate>(
        self,
        crew: &Crew<'_, R, G>,
        hops: HopBound,
        needed: Needed,
    ) -> Result<Checked, AllocError>
        ensures graph { IfOk result (λ checked. checked.graph ≡ self.graph) }
        ensures frame { IfOk result (λ checked. checked.frame ≡ self.frame) }
        ensures serving { IfOk result (λ checked. IsServing needed hops.number self.graph self.saved checked.hierarchy) }
    {
        let Loaded {
            graph,
            saved,
            frame,
        } = self;
        let hierarchy = match saved {
            Some(hierarchy) => hierarchy,
            None => build(crew, &graph, hops, needed)?,
        };
        Ok(Checked {
            graph,
            hierarchy,
            frame,
        })
    }

    /// Does the same, and drops the graph. Its memory is then free for the answers.
    pub(crate) fn hierarchy<R: Threads + Sync, G: Gate>(
        self,
        crew: &Crew<'_, R, G>,
        hops: HopBound,
        needed: Needed,
    ) -> Result<Hierarchy, AllocError>
        ensures serving { IfOk result (IsServing needed hops.number self.graph self.saved) }
        ensures kept { IfOk result (IsKept self.graph) }
        ensures limits { IfOk result (λ _. IsWithinLimits self.graph) }
    {
        let Checked { hierarchy, .. } = self.checked(crew, hops, needed)?;
        Ok(hierarchy)
    }
}

/// Reads an input to its end, as a saved hierarchy on this graph. All workers read its bytes.
#[tactic(auto, using(crate::proofs::Judged::unread_judged))]
fn saved_from<R: Threads + Sync, S: Input, G: Gate>(
    crew: &Crew<'_, R, G>,
    input: &mut S,
    graph: &Graph,
) -> Result<Saved, RunFault>
    ensures read { MatchResult result (ReadsSaved (reading S.read_gives input.old input.new) graph.now.nodes)
        (EndsAt Which.Saved (reading S.read_gives input.old input.new) (IsSavedRefusedOn graph.now)) }
    ensures same { S.origin input.new ≡ S.origin input.old }
{
    crew.gate.watch(Stage::Reading, 1, 2);
    let bytes = bytes_from(crew.alloc, input, Which::Saved)?;
    Which::Saved.judged(read_saved_by(crew, &bytes, graph.nodes()))
}

/// Reads an input to its end, as an order of the nodes of this graph in the form of a saved hierarchy. All workers read
/// its bytes, and no leg is kept.
#[tactic(auto, using(crate::proofs::Judged::unread_judged))]
fn order_from<R: Threads + Sync, S: Input, G: Gate>(
    crew: &Crew<'_, R, G>,
    input: &mut S,
    graph: &Graph,
) -> Result<Vec<u32>, RunFault>
    ensures read { MatchResult result (λ order. ReadsAll (reading S.read_gives input.old input.new) (λ bytes. NamesOrder bytes graph.now.nodes order.items))
        (EndsAt Which.Order (reading S.read_gives input.old input.new) (IsRefused (Form.Saved graph.now.nodes))) }
    ensures same { S.origin input.new ≡ S.origin input.old }
{
    crew.gate.watch(Stage::Reading, 1, 2);
    let bytes = bytes_from(crew.alloc, input, Which::Order)?;
    Which::Order.judged(read_order_by(crew, &bytes, graph.nodes()))
}
