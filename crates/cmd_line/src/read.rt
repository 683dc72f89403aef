//! A command's words, read by one `clap` command.
ghost use Rattle.std.specs.Prelude.{◌≡◌, ◌≤◌, IfOk, IfSome, IsTrue, false, not, [], map, length, vec_len, string_bytes, option_map, unwrap_or};
ghost use Rattle.clap.specs.Words.{app_of, rule_of, all_of, first_of, rows_of, found_of};
ghost use Rattle.cmd_line.specs.Command.{command_for, option_rule, names_id, texts, IsParse};
ghost use Rattle.cmd_line.specs.Reading.{asked, is_between, is_known};
ghost use Rattle.cmd_line.specs.Read.{seen};

use clap::error::ErrorKind;
use clap::{Arg, ArgAction, ArgMatches, Command};
use mx_io::Memory;
use std::alloc::{AllocError, Global};

/// The one argument of the `clap` command that takes all names.
const NAMES: &str = "NAMES";

/// What words a command takes.
#[derive(Clone, Copy, Debug)]
pub struct Shape<'a> {
    /// The names of its options, without the `--`.
    pub options: &'a [&'a str],
    /// How few names it may take.
    pub fewest: usize,
    /// How many names it may take.
    pub most: usize,
}

impl Shape<'_> {
    /// Whether it may take that many names.
    fn takes(&self, count: usize) -> bool
        ensures { result ≡ is_between self.now.fewest self.now.most count }
    {
        self.fewest <= count && count <= self.most
    }
}

/// What a command's words say.
#[derive(Debug, Drop)]
pub struct Read<'a> {
    /// The names, in order.
    pub names: Vec<&'a str>,
    /// The value of each option, in the order of the shape, where it was given.
    pub values: Vec<Option<&'a str>>,
}

/// An option with one value.
fn option_arg<'a>(alloc: Global, name: &'a str) -> Arg<'a>
    ensures rule { rule_of result ≡ option_rule name.entry.now }
    ensures local { result.global ≡ false }
{
    Arg::new(alloc, name).long(name).action(ArgAction::Set)
}

/// The `clap` command with these options and any number of names.
fn command_of<'a>(alloc: Global, options: &'a [&'a str]) -> Result<Command<'a>, AllocError>
    ensures { IfOk result (λ c. app_of c ≡ command_for (texts options.entry.now)) }
{
    let bare = Command::new(alloc, "words")
        .no_binary_name(true)
        .disable_help_flag(true)
        .disable_version_flag(true);
    let mut command = bare.arg(Arg::new(alloc, NAMES).action(ArgAction::Append))?;
    for option in options {
        command = command.arg(option_arg(alloc, option))?;
    }
    Ok(command)
}

/// What `clap` finds in the words, or none where it refuses them.
fn parse<'a>(
    alloc: Global,
    options: &'a [&'a str],
    words: &'a [String],
) -> Result<Option<ArgMatches<'a>>, Memory>
    ensures { IfOk result (λ r. IsParse (texts options.entry.now) (map string_bytes words.entry.now) r) }
{
    let Ok(command) = command_of(alloc, options) else {
        return Err(Memory);
    };
    match command.try_get_matches_from(words) {
        Ok(matches) => Ok(Some(matches)),
        Err(error) => {
            if error.kind() == ErrorKind::OutOfMemory {
                Err(Memory)
            } else {
                Ok(None)
            }
        }
    }
}

/// The names that were found.
fn names_in<'a>(alloc: Global, matches: &ArgMatches<'a>) -> Result<Vec<&'a str>, Memory>
    ensures { IfOk result (λ v. texts v.items ≡ unwrap_or (all_of names_id (rows_of (found_of matches.now))) []) }
{
    match matches.get_strs(NAMES) {
        Some(names) => match Vec::from_slice(alloc, names) {
            Ok(copy) => Ok(copy),
            Err(_) => Err(Memory),
        },
        None => Ok(Vec::new(alloc)),
    }
}

/// The value that was found of each option.
fn values_in<'a>(
    alloc: Global,
    matches: &ArgMatches<'a>,
    options: &[&str],
) -> Result<Vec<Option<&'a str>>, Memory>
    ensures count { IfOk result (λ v. vec_len v ≡ length options.now) }
    ensures values { IfOk result (λ v. map (option_map (λ s. s.now)) v.items
        ≡ map (λ o. first_of o (rows_of (found_of matches.now))) (texts options.now)) }
{
    let mut values = Vec::new(alloc);
    for option in options {
        let Ok(()) = values.push(matches.get_str(option)) else {
            return Err(Memory);
        };
    }
    Ok(values)
}

/// The names and the options' values that a command's words give, or none where the words are not
/// of its shape. Its error is want of memory.
///
/// No option may be called `NAMES`.
pub fn read_words<'a>(
    alloc: Global,
    shape: &Shape<'a>,
    words: &'a [String],
) -> Result<Option<Read<'a>>, Memory>
    requires { IsTrue (not (is_known (texts shape.now.options.now) names_id)) }
    ensures asked { IfOk result (λ r. option_map seen r
        ≡ asked (texts shape.now.options.now) shape.now.fewest shape.now.most (map string_bytes words.entry.now)) }
    ensures names { IfOk result (λ r. IfSome r (λ read. (shape.now.fewest ≤ vec_len read.names) × (vec_len read.names ≤ shape.now.most))) }
    ensures values { IfOk result (λ r. IfSome r (λ read. vec_len read.values ≡ length shape.now.options.now)) }
{
    let found = match parse(alloc, shape.options, words) {
        Ok(found) => found,
        Err(Memory) => return Err(Memory),
    };
    let Some(matches) = found else {
        return Ok(None);
    };
    let names = names_in(alloc, &matches)?;
    if !shape.takes(names.len()) {
        return Ok(None);
    }
    let values = values_in(alloc, &matches, shape.options)?;
    Ok(Some(Read { names, values }))
}
