//! The line: what the program is asked for.

use ch_job::Job;

/// The line that the words give.
#[derive(Debug, Drop)]
pub struct Line {
    /// What the words ask for, with the names of the files. Plain distances and `save` read no saved hierarchy, and
    /// plain distances no order.
    pub job: Job<String>,
    /// Whether the words ask for reports of progress. These change nothing in the output.
    pub progress: bool,
}
