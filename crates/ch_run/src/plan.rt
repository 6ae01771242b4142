//! The crews, plans, gates and stages of `ch_work`: who does the work, how it is divided, and who receives its progress.

pub use ch_work::{Crew, Gate, Open, Plan, Stage};
