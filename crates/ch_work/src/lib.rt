//! How work is cut among workers.
//!
//! It stands on atomic_table. A [`Plan`] says how many workers there are and how large the pieces are. There are
//! four kinds of jobs:
//!
//! - A [`Job`] makes a value of each piece ([`run_pieces`]).
//! - A [`RoomJob`] does so in a room that each worker has ([`run_pieces_in`]).
//! - A [`ListJob`] makes a value of each item of a list ([`run_list`]).
//! - A [`CellJob`] owes weights to the cells of a board, and [`run_cells`] gives the least weight owed to
//!   each cell.
//!
//! Each worker claims the next piece from a [`Board`], and calls a [`Gate`] before it does the piece. The
//! crates above report each [`Stage`] of a run to the gate, which may show the progress.
//!
//! Proved of jobs:
//!
//! - A plan gives back the numbers that it was made of, and they are within the [`limits`].
//! - The values of a job are in the order of its pieces or items, for every plan and every division of the
//!   work.
//! - A room is clean when it is lent to a piece.
//! - [`joined`] puts lists that pieces made one after another.
//!
//! Proved of a board, for every interleaving of the steps of its passes:
//!
//! - No number is claimed twice. If a pass has ended, every number was claimed.
//! - A closed cell has the least weight that was offered to it, and only offered weights were shown.
//! - So each cell of a job has the least weight that the pieces owe to it.
#![tactic(auto)]

mod board;
mod cells;
mod crew;
mod done;
mod gate;
mod job;
pub mod limits;
mod list_job;
mod lists;
mod paying;
mod pieces;
mod plan;
mod shared;
mod test_gates;
mod work;

pub use board::{Board, Known, Pass, Size};
pub use cells::{CellJob, run_cells};
pub use crew::Crew;
pub use gate::{Gate, Open, Stage};
pub use job::{Job, RoomJob};
pub use list_job::{ListJob, run_list, run_list_in};
pub use lists::{joined, length_of};
pub use paying::pay;
pub use pieces::{run_pieces, run_pieces_in};
pub use plan::Plan;
pub use test_gates::{CountingGate, MeetingGate};
