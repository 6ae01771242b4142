//! Readers of the four kinds of file (graphs, queries, lists of nodes and saved hierarchies), and a reader of
//! requests whose bytes come in parts.
//!
//! It stands on ch_graph and ch_work. From ch_graph it has graphs, arcs and hierarchies as data, from ch_work
//! the limit on cells and the crew. These statements are proved:
//!
//! - A reader returns a value exactly if the bytes name that value, unless memory runs out.
//! - It returns a fault exactly if this is the first fault of the first faulty line, unless memory runs out.
//! - Each list of bytes names one value or has one fault, and not both.
//! - Workers that read a file in sections return the same.
//! - A [`RequestReader`] gives the same requests however its bytes are cut. It gives each request once and in
//!   order, as soon as its last line is whole. Then it returns the first fault.
//!
//! # The order of checks
//!
//! A line is skipped if it has no word, or if its first word begins with `c`. The other lines are judged in
//! order. The first line that fails a check decides, with the first check that it fails:
//!
//! | line | check | where it fails |
//! |---|---|---|
//! | any | its first word is `p` or a letter of the file's items | `UnknownLine` |
//! | `p` | no problem line came before | `SecondProblem` |
//! | `p` | it has the words of its form, and numbers in their places | `BadProblem` |
//! | `p` | nodes, arcs, queries, listed nodes and legs are within the [`limits`](ch_graph::limits) | `Size` |
//! | `p` | a hierarchy has as many nodes as its graph | `Size` |
//! | item | a problem line came before | `NoProblem` |
//! | item | it has numbers in their places, and no other words | `BadLine` |
//! | item | fewer items of its letter than declared came before | `TooMany` |
//! | item | each node is from 1 to the number of nodes; a leg's middle may be 0 | `NodeRange` |
//! | arc | the number of nodes times its weight is at most [`MOST_WEIGHT`](ch_graph::limits::MOST_WEIGHT) | `Sum` |
//! | leg | its weight is at most that, and its arcs at most [`MOST_NODES`](ch_graph::limits::MOST_NODES) | `Sum` |
//! | after the last | there was a problem line | `NoProblem` |
//! | after the last | there were no fewer items of each letter than declared | `TooFew` |
//!
//! # Requests
//!
//! A stream of requests has these lines. Lines `s V` list nodes, and lines `a U V W` new weights. They follow the line
//! with their number.
//!
//! | line | what it asks for |
//! |---|---|
//! | `q S T` | a query |
//! | `r S T` | a query with its route |
//! | `t K L`, `t K L R` | a table of the next K listed nodes and then L, sources first; its own limit is R |
//! | `p L K` | nothing: the next L listed nodes are the places of later near rows, with K in a row, or all if K is 0 |
//! | `n S`, `n S R` | the near row of S among the places that were given last; its own limit is R |
//! | `w K` | nothing: for each of the next K lines `a U V W`, each arc from U to V weighs W for all later requests |
//!
//! Lines are skipped as in files, but no line may have more than [`MOST_LINE`] bytes. The others are judged in
//! order:
//!
//! | line | check | where it fails |
//! |---|---|---|
//! | any, also a comment | it has at most [`MOST_LINE`] bytes | `BadLine` |
//! | any | its first word is `q`, `r`, `t`, `p`, `n`, `w`, `s` or `a` | `UnknownLine` |
//! | all but `s` and `a`, after the last | nothing that was begun wants a node or a new weight | `TooFew` |
//! | any | it has numbers in their places, and no other words | `BadLine` |
//! | `t`, `p` | K and L are at most [`MOST_LISTED`](ch_graph::limits::MOST_LISTED) | `Size` |
//! | `w` | K is at most [`MOST_NEW_WEIGHTS`] | `Size` |
//! | `s`, `a` | what was begun wants a node, or a new weight | `TooMany` |
//! | `q`, `r`, `n`, `s`, `a` | each node is from 1 to the number of nodes | `NodeRange` |
//! | `t`, `n` | R is at most [`MOST_WEIGHT`](ch_graph::limits::MOST_WEIGHT) | `Sum` |
//! | `a` | the number of nodes times W is at most [`MOST_WEIGHT`](ch_graph::limits::MOST_WEIGHT) | `Sum` |
//! | `t` | K times L is at most [`MOST_CELLS`](ch_work::limits::MOST_CELLS) | [`Cells`](RequestFault::Cells) |
#![tactic(auto)]

mod begun;
mod check;
mod fault;
mod first_line;
mod form;
mod graph;
mod laws;
mod lines;
mod new_weights;
mod nodes;
mod number;
mod pending;
mod plain_line;
mod queries;
mod reader;
mod request;
mod request_fault;
mod request_line;
mod request_reader;
mod saved;
mod sections;

pub use fault::{FaultKind, ReadError, ReadFault};
pub use form::Form;
pub use graph::{read_graph, read_graph_by, read_graph_in_sections};
pub use laws::{constants, one_answer, requests_by_parts, requests_whole_in_turn};
pub use new_weights::{MOST_NEW_WEIGHTS, NewWeight, NewWeights};
pub use nodes::read_nodes;
pub use queries::read_queries;
pub use request::{Asked, MOST_LINE, NearPlaces, Request, TableLists};
pub use request_fault::{RequestError, RequestFault};
pub use request_reader::RequestReader;
pub use saved::{read_order_by, read_saved, read_saved_by, read_saved_in_sections};
