//! The command line as clap reads it: its tools, with their options and files.

ghost use Rattle.std.specs.Prelude.{◌≡◌, IfOk, List, codes, false, fold};
ghost use Rattle.clap.specs.Words.{App, Rule, app_of, new_app, rule_of, with_rule, with_subcommand};
ghost use Rattle.clap.specs.declared.builder.command.Command.TheViews.{out-Command as fields_of};
ghost use Rattle.ch_words.specs.Line.{HasForm, ask_form, chtab_form, dist_form, file_rule, near_form, program_form, save_form, shared_rules, table_form};
ghost use Rattle.ch_words.specs.Options.{rules_of};

use crate::arguments::{argument, file, graph, lists};
use crate::options::{
    Row, ask_options, dist_options, near_options, save_options, shared_options, table_options,
};
use ch_job::Question;
use clap::{Arg, Command};
use std::alloc::{AllocError, Global};

/// The version of the program, and the line of the kit that it is proved with. The file VERSION has both.
const VERSION: &str = "1.3\nrattle-kit-13f logic dac8208d650f15bf";

/// What follows the help of `ask`.
const REQUESTS: &str = "Requests, one a line:\n  \
    q S T      the distance from node S to node T\n  \
    r S T      the same, and the route\n  \
    t K L [R]  a table: K lines `s V` follow with the sources, and then L with the targets\n  \
    p L K      places: L lines `s V` follow. Each later `n` has the K nearest, or all if K is 0\n  \
    n S [R]    the places nearest to node S, with their distances\n  \
    w K        new weights, with --customizable: K lines `a U V W` follow. From here on each arc from U to V weighs W\n\
    R leaves out distances above R. A route follows the saved hierarchy, or the one that is built: in \
    depth order, unless --routes is given without --deep.\n\n\
    Example: chtab ask --saved roads.ch roads.gr <requests.txt";

/// Adds an argument, if the command was made.
fn with_arg<'a>(
    command: Result<Command<'a>, AllocError>,
    arg: Arg<'a>,
) -> Result<Command<'a>, AllocError>
    ensures { (form : App) (rule : Rule) → IfOk command.entry (HasForm form) → rule_of arg.entry ≡ rule → arg.entry.global ≡ false
        → IfOk result (HasForm (with_rule form rule)) }
{
    command?.arg(arg)
}

/// Adds options.
fn with_options<'a>(
    alloc: Global,
    command: Result<Command<'a>, AllocError>,
    rows: &[Row],
) -> Result<Command<'a>, AllocError>
    ensures { (form : App) → IfOk command.entry (HasForm form) → IfOk result (HasForm (fold with_rule form (rules_of rows.now))) }
{
    let mut command = command;
    for row in rows {
        command = with_arg(command, argument(alloc, row));
    }
    command
}

/// Adds the options of one tool, the options of all tools, and the file of the graph. The form accepts options that don't
/// go together, such as both orders: clap promises nothing on the faults of words if one argument excludes another.
fn with_graph<'a>(
    alloc: Global,
    command: Command<'a>,
    own: &[Row],
) -> Result<Command<'a>, AllocError>
    ensures { (form : App) (rules : List Rule) → rules_of own.now ≡ rules → HasForm form command.entry
        → IfOk result (HasForm (with_rule (fold with_rule (fold with_rule form rules) shared_rules) (file_rule (codes "GRAPH")))) }
{
    let command = with_options(alloc, Ok(command), own);
    with_arg(
        with_options(alloc, command, &shared_options()),
        graph(alloc),
    )
}

/// Makes a command without options and files.
fn named<'a>(alloc: Global, name: &'a str, about: &'a str, after_help: &'a str) -> Command<'a>
    ensures form { app_of result ≡ new_app name.entry.now }
    ensures local { (fields_of result).has_globals ≡ false }
{
    Command::new(alloc, name)
        .about(about)
        .after_help(after_help)
}

/// Makes the command `dist` with its options and files.
fn dist_command<'a>(alloc: Global) -> Result<Command<'a>, AllocError>
    ensures form { IfOk result (λ c. app_of c ≡ dist_form) }
    ensures local { IfOk result (λ c. (fields_of c).has_globals ≡ false) }
{
    let command = named(
        alloc,
        "dist",
        "Write the distance of each query, and with --routes its route",
        "For each query it writes `d S T X`: X is the distance from S to T, or - if no path leads there.\n\n\
        Example: chtab dist --routes roads.gr pairs.p2p",
    );
    let queries = file(
        alloc,
        "QUERIES",
        "A .p2p file: `p aux sp p2p K`, then K lines `q S T`",
    );
    with_arg(with_graph(alloc, command, &dist_options()), queries)
}

/// Makes the command `table` with its options and files.
fn table_command<'a>(alloc: Global) -> Result<Command<'a>, AllocError>
    ensures form { IfOk result (λ c. app_of c ≡ table_form) }
    ensures local { IfOk result (λ c. (fields_of c).has_globals ≡ false) }
{
    let command = named(
        alloc,
        "table",
        "Write the distances from each source to each target",
        "For each source it writes `t S X ..`: an X for each target, the distance from S to it, or - if no path \
        leads there.\n\n\
        Examples:\n  \
        chtab table roads.gr depots.ss shops.ss\n  \
        chtab table --within 900000 roads.gr homes.ss doctors.ss",
    );
    let command = with_graph(alloc, command, &table_options());
    let sources = file(
        alloc,
        "SOURCES",
        "A .ss file: `p aux sp ss K`, then K lines `s V`",
    );
    let targets = file(alloc, "TARGETS", "A .ss file, as for SOURCES");
    with_arg(with_arg(command, sources), targets)
}

/// Makes the command `near` with its options and files.
pub(crate) fn near_command<'a>(alloc: Global) -> Result<Command<'a>, AllocError>
    ensures form { IfOk result (λ c. app_of c ≡ near_form) }
    ensures local { IfOk result (λ c. (fields_of c).has_globals ≡ false) }
{
    let command = named(
        alloc,
        "near",
        "Write the nearest targets of each source, or with --all of each node",
        "For each source it writes `n S K T X ..`: K targets T follow, each with its distance X from S. The \
        nearest comes first, and of equally near ones the one that TARGETS names first.\n\n\
        Examples:\n  \
        chtab near --count 3 roads.gr homes.ss doctors.ss\n  \
        chtab near --all --within 900000 roads.gr doctors.ss",
    )
    .override_usage(
        "chtab near [OPTIONS] <GRAPH> <SOURCES> <TARGETS>\n       \
        chtab near [OPTIONS] --all <GRAPH> <TARGETS>",
    );
    with_arg(with_graph(alloc, command, &near_options()), lists(alloc))
}

/// Makes the command `save` with its options and file.
fn save_command<'a>(alloc: Global) -> Result<Command<'a>, AllocError>
    ensures form { IfOk result (λ c. app_of c ≡ save_form) }
    ensures local { IfOk result (λ c. (fields_of c).has_globals ≡ false) }
{
    let command = named(
        alloc,
        "save",
        "Write the hierarchy of a graph, for --saved of the other tools",
        "Examples:\n  \
        chtab save --deep roads.gr >roads.ch\n  \
        chtab save --quick --workers 4 roads.gr >roads.ch\n  \
        chtab save --like roads.ch roads-at-noon.gr >roads-at-noon.ch",
    );
    with_graph(alloc, command, &save_options())
}

/// Makes the command `ask` with its options and file.
fn ask_command<'a>(alloc: Global) -> Result<Command<'a>, AllocError>
    ensures form { IfOk result (λ c. app_of c ≡ ask_form) }
    ensures local { IfOk result (λ c. (fields_of c).has_globals ≡ false) }
{
    let command = named(
        alloc,
        "ask",
        "Answer requests from standard input as they come, on a graph that is loaded once",
        REQUESTS,
    );
    with_graph(alloc, command, &ask_options())
}

/// Sets the name that usage shows, if the command was made.
fn shown_as<'a>(
    command: Result<Command<'a>, AllocError>,
    name: &str,
) -> Result<Command<'a>, AllocError> {
    command?.bin_name(name)
}

/// Makes the command of the tool for a question. Its errors then show the usage of that tool.
pub(crate) fn tool_command<'a>(
    alloc: Global,
    question: &Question<String>,
) -> Result<Command<'a>, AllocError> {
    match question {
        Question::Queries(_) => shown_as(dist_command(alloc), "chtab dist"),
        Question::Table { .. } => shown_as(table_command(alloc), "chtab table"),
        Question::Near { .. } => shown_as(near_command(alloc), "chtab near"),
        Question::Hierarchy => shown_as(save_command(alloc), "chtab save"),
        Question::Requests => shown_as(ask_command(alloc), "chtab ask"),
    }
}

/// Makes the program's own command, without its tools. It has only `--help` and `--version`, and else a tool must
/// follow.
fn program<'a>(alloc: Global) -> Result<Command<'a>, AllocError>
    ensures { IfOk result (λ c. app_of c ≡ program_form) }
{
    named(
        alloc,
        "chtab",
        "Exact shortest paths in road networks",
        "`chtab dist --help` explains dist, and so on.\n\n\
        Examples:\n  \
        chtab dist --routes roads.gr pairs.p2p\n  \
        chtab table roads.gr depots.ss shops.ss\n  \
        chtab near --count 3 roads.gr homes.ss doctors.ss\n  \
        chtab save --deep roads.gr >roads.ch\n  \
        chtab ask --saved roads.ch roads.gr <requests.txt",
    )
    .no_binary_name(true)
    .subcommand_required(true)
    .disable_help_subcommand(true)
    .version(VERSION)
    .bin_name("chtab")
}

/// Adds a tool, if the command and the tool were made.
fn with_tool<'a>(
    command: Result<Command<'a>, AllocError>,
    tool: Result<Command<'a>, AllocError>,
) -> Result<Command<'a>, AllocError>
    ensures { (form : App) (of_tool : App) → IfOk command.entry (λ c. app_of c ≡ form) → IfOk tool.entry (HasForm of_tool)
        → IfOk result (λ c. app_of c ≡ with_subcommand form of_tool.top) }
{
    command?.subcommand(tool?)
}

/// Makes the command for all words after the program's name.
pub fn command<'a>(alloc: Global) -> Result<Command<'a>, AllocError>
    ensures { IfOk result (λ c. app_of c ≡ chtab_form) }
{
    let command = with_tool(program(alloc), dist_command(alloc));
    let command = with_tool(command, table_command(alloc));
    let command = with_tool(command, near_command(alloc));
    let command = with_tool(command, save_command(alloc));
    with_tool(command, ask_command(alloc))
}
