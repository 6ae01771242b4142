//! Jobs and their questions.

use crate::options::Options;
use crate::source::Source;
use crate::sources::Sources;
use ch_work::Plan;

/// What the program is asked for: a question about a graph, with its files, its options and its plan. The files are
/// their names, or the opened files.
#[derive(Debug, Drop)]
pub struct Job<F: Drop> {
    pub graph: F,
    pub source: Source<F>,
    pub question: Question<F>,
    pub options: Options,
    pub plan: Plan,
}

/// A question about a graph, with its files.
#[derive(Debug, Drop)]
pub enum Question<F: Drop> {
    /// Asks for the answers to these queries.
    Queries(F),
    /// Asks for the table of these lists.
    Table { sources: F, targets: F },
    /// Asks for the near rows of these lists.
    Near { sources: Sources<F>, targets: F },
    /// Asks for the text of the hierarchy.
    Hierarchy,
    /// Asks for the answers to requests, which come while the run goes on.
    Requests,
}
