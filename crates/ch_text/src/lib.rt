//! Devices, and the texts of answers.
//!
//! It stands on ch_graph, ch_hierarchy, ch_query, itoa and thiserror. It does not know runs, threads or tables, or how a
//! hierarchy is built.
//!
//! [`Input`] and [`Output`] are devices that count their faults. They are over memory ([`MemoryInput`],
//! [`MemoryOutput`]) or over the readers and writers of `std` ([`ReaderInput`], [`WriterOutput`]).
//!
//! Proved:
//!
//! - [`read_all`] returns exactly the bytes that the input had, in any number of reads.
//! - [`write_all`] gives the output exactly the bytes of its text, in any number of writes.
//! - Each text is the one that the definitions name, byte for byte.
#![tactic(auto)]

mod device;
mod hierarchy_text;
pub mod laws;
mod near_text;
mod short_text;
mod text;

pub use device::{
    DeviceFault, Input, MemoryInput, MemoryOutput, Output, ReadAllFault, ReadOnce, ReaderInput,
    WriteOnce, WriterOutput, read_all, write_all,
};
pub use hierarchy_text::save_text;
pub use near_text::push_near_row;
pub use short_text::ShortText;
pub use text::{push_answer, push_row};
