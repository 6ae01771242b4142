//! Reads the words after the program's name.

ghost use Rattle.std.specs.Prelude.{IfErr, IfOk, map};
ghost use Rattle.ch_words.specs.Line.{IsAllowed, IsFaultOf, IsReadFrom};

use crate::fault::{LineFault, fault_of};
use crate::form::command;
use crate::given::line_of;
use crate::line::Line;
use std::alloc::Global;

/// Reads the words after the program's name: `dist [OPTION].. GRAPH QUERIES`,
/// `table [OPTION].. GRAPH SOURCES TARGETS`, `near [OPTION].. GRAPH SOURCES TARGETS`,
/// `near [OPTION].. --all GRAPH TARGETS`, `save [OPTION].. GRAPH` or `ask [OPTION].. GRAPH`, with the options of
/// that tool. `--deep` and `--quick` don't go together, nor do `--like` and `--customizable` go with these or with
/// `--saved`. `--fresh` needs `--like`, and doesn't go with `--customizable`.
///
/// # Errors
/// `Help` if the words ask for help or for the version; `Refused` if they don't have one of these forms; `NoMemory`.
pub fn read_words<'a>(alloc: Global, words: &'a [&'a str]) -> Result<Line, LineFault>
    ensures limits { IfOk result IsAllowed }
    ensures read { IfOk result (IsReadFrom (map (λ word. word.now) words.entry.now)) }
    ensures fault { IfErr result (IsFaultOf (map (λ word. word.now) words.entry.now)) }
{
    let matches = match command(alloc)?.try_get_matches_from(words) {
        Ok(matches) => matches,
        Err(error) => return Err(fault_of(alloc, &error)),
    };
    // Clap has refused words that name no tool.
    let Some((name, matches)) = matches.subcommand() else {
        return Err(LineFault::NoMemory);
    };
    line_of(alloc, name, matches)
}
