//! The room that queries use.
ghost use Rattle.std.specs.Prelude.{◌≡◌, ◌*◌, length, IfOk};

use crate::routes::tries::Tries;
use crate::sides::Sides;
use crate::weights::search::WeightSearch;
use std::alloc::{AllocError, Global};
use std::marker::Model;

/// Room for queries in a hierarchy with a fixed number of nodes. Contracts see that number.
///
/// A scratch serves any number of queries, one after another. Each query leaves it clean, in a step for
/// each node that it touched.
#[derive(Drop)]
pub struct Scratch {
    /// The room for distances and search spaces.
    pub(crate) weights: WeightSearch,
    /// Where search spaces are gathered.
    pub(crate) found: Vec<(u32, u64)>,
    /// Two marks for each node, for routes by weights alone. They are made for the first of these.
    marks: Option<Vec<u32>>,
    /// Whether routes are first searched for by weights alone.
    pub(crate) tries: Tries,
    /// The room for other routes and spreads. It is made for the first of them.
    sides: Option<Sides>,
    nodes: u32,
}

impl Model for Scratch {
    ghost use Rattle.std.specs.Prelude.{◌≡◌, ◌*◌, ℕ, ⊤, length, MatchOption};
    ghost use Rattle.ch_query.specs.Weights.{IsCleanFor};

    ghost Value = { ℕ };

    ghost view = { λ s. s.nodes };

    ghost invariant = { λ s. IsCleanFor s.nodes s.weights × MatchOption s.marks ⊤ (λ marks. length marks.items ≡ 2 * s.nodes) × MatchOption s.sides ⊤ (λ sides. sides ≡ s.nodes) };
}

impl Scratch {
    /// Makes room for queries among `nodes` nodes, in a number of steps that grows with `nodes`.
    ///
    /// It requests 64 bytes for each node, and writes 24 of them. Distances take no more, and search spaces
    /// take the memory of their entries. The first route requests 8 bytes more for each node. The first route with a
    /// tie, or the first spread, requests 104 bytes more for each node, and writes 48 of them before it searches.
    ///
    /// # Errors
    /// `AllocError` if there is no memory, or `nodes` is more than 2^31 - 1.
    pub fn new(alloc: Global, nodes: u32) -> Result<Scratch, AllocError>
        ensures { IfOk result (λ s. s ≡ nodes) }
    {
        let weights = WeightSearch::new(alloc, nodes)?;
        Ok(Scratch {
            weights,
            found: Vec::new(alloc),
            marks: None,
            tries: Tries::new(),
            sides: None,
            nodes,
        })
    }

    /// Takes the marks out, or makes them if there are none yet.
    pub(crate) fn take_marks(&mut self, alloc: Global) -> Result<Vec<u32>, AllocError>
        ensures marks { IfOk result (λ marks. length marks.items ≡ 2 * self.old) }
        ensures same { self.new ≡ self.old }
    {
        match self.marks.take() {
            Some(marks) => Ok(marks),
            None => vec![in alloc; 0; 2 * self.nodes as usize],
        }
    }

    /// Puts the marks back.
    pub(crate) fn put_marks(&mut self, marks: Vec<u32>)
        requires { length marks.items ≡ 2 * self.old }
        ensures { self.new ≡ self.old }
    {
        self.marks = Some(marks);
    }

    /// Takes the two sides out, or makes them if there are none yet.
    pub(crate) fn take_sides(&mut self, alloc: Global) -> Result<Sides, AllocError>
        ensures sides { IfOk result (λ sides. sides ≡ self.old) }
        ensures same { self.new ≡ self.old }
    {
        match self.sides.take() {
            Some(sides) => Ok(sides),
            None => Sides::new(alloc, self.nodes),
        }
    }

    /// Puts the two sides back.
    pub(crate) fn put_sides(&mut self, sides: Sides)
        requires { sides ≡ self.old }
        ensures { self.new ≡ self.old }
    {
        self.sides = Some(sides);
    }
}
