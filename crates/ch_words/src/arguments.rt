//! The arguments of the command line as clap reads them: flags, options and files.

ghost use Rattle.std.specs.Prelude.{◌≡◌, codes, false};
ghost use Rattle.clap.specs.Words.{rule_of};
ghost use Rattle.ch_words.specs.Line.{file_rule, flag_rule, limit_rule, lists_rule, number_rule, option_rule};
ghost use Rattle.ch_words.specs.Options.{row_rule};

use crate::options::{Row, Value};
use clap::builder::ValueParser;
use clap::{Arg, ArgAction};
use std::alloc::Global;

/// Makes a flag.
fn flag<'a>(alloc: Global, name: &'a str, help: &'a str) -> Arg<'a>
    ensures rule { rule_of result ≡ flag_rule name.entry.now }
    ensures local { result.global ≡ false }
{
    Arg::new(alloc, name)
        .long(name)
        .action(ArgAction::SetTrue)
        .help(help)
}

/// Makes an argument for a file that must be named.
pub(crate) fn file<'a>(alloc: Global, name: &'a str, help: &'a str) -> Arg<'a>
    ensures rule { rule_of result ≡ file_rule name.entry.now }
    ensures local { result.global ≡ false }
{
    Arg::new(alloc, name)
        .required(true)
        .action(ArgAction::Set)
        .help(help)
}

/// Makes an option with a value. The words may leave it out.
fn option<'a>(alloc: Global, name: &'a str, value: &'a str, help: &'a str) -> Arg<'a>
    ensures rule { rule_of result ≡ option_rule name.entry.now }
    ensures local { result.global ≡ false }
{
    Arg::new(alloc, name)
        .long(name)
        .action(ArgAction::Set)
        .value_name(value)
        .help(help)
}

/// Makes an option for a number from 1 to `most`, with a default.
fn number<'a>(
    alloc: Global,
    name: &'a str,
    value: &'a str,
    most: u32,
    default: &'a str,
    help: &'a str,
) -> Arg<'a>
    ensures rule { rule_of result ≡ number_rule name.entry.now most default.entry.now }
    ensures local { result.global ≡ false }
{
    option(alloc, name, value, help)
        .value_parser(ValueParser::signed(1, i64::from(most)))
        .default_value(default)
}

/// Makes an option for a number from `least` to `most`, without a default.
fn limit<'a>(
    alloc: Global,
    name: &'a str,
    value: &'a str,
    least: u64,
    most: u64,
    help: &'a str,
) -> Arg<'a>
    ensures rule { rule_of result ≡ limit_rule name.entry.now least most }
    ensures local { result.global ≡ false }
{
    option(alloc, name, value, help).value_parser(ValueParser::unsigned(least, most))
}

/// Makes the argument of an option.
pub(crate) fn argument<'a>(alloc: Global, row: &Row) -> Arg<'a>
    ensures rule { rule_of result ≡ row_rule row.now }
    ensures local { result.global ≡ false }
{
    let name = row.name;
    let help = row.help;
    match row.value {
        Value::Nothing => flag(alloc, name, help),
        Value::File => option(alloc, name, "FILE", help),
        Value::Number {
            name: value,
            most,
            default,
        } => number(alloc, name, value, most, default, help),
        Value::Limit {
            name: value,
            least,
            most,
        } => limit(alloc, name, value, least, most, help),
    }
}

/// Makes the argument for the file of the graph.
pub(crate) fn graph<'a>(alloc: Global) -> Arg<'a>
    ensures rule { rule_of result ≡ file_rule (codes "GRAPH") }
    ensures local { result.global ≡ false }
{
    file(
        alloc,
        "GRAPH",
        "A .gr file: `p sp N M`, then M lines `a U V W`, an arc from node U to node V of weight W. \
        Nodes are 1 to N",
    )
}

/// Makes the argument for the lists of `near`. Clap takes one list or two. It can't require the first of
/// two only if `--all` is not given.
pub(crate) fn lists<'a>(alloc: Global) -> Arg<'a>
    ensures rule { rule_of result ≡ lists_rule }
    ensures local { result.global ≡ false }
{
    Arg::new(alloc, "LISTS")
        .required(true)
        .action(ArgAction::Append)
        .num_args(1..=2)
        .help(
            "SOURCES and TARGETS, or with --all TARGETS alone. Each is a .ss file: `p aux sp ss K`, then K lines `s V`",
        )
}
