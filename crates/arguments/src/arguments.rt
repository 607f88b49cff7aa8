//! Builds the description of the command-line arguments for the parser `clap`, and makes a job (the subcommand with its
//! options) from the values that `clap` finds.
ghost use Rattle.std.specs.Prelude.{◌≡◌, map, option_map, string_bytes, codes, IfOk, IfErr, Some, false};
ghost use Rattle.clap.specs.Words.{app_of, first_of, found_of, rows_of, rule_of, subcommand_rows_of};
ghost use Rattle.clap.specs.Values.{kind_of};
ghost use Rattle.clap.specs.declared.error.kind.ErrorKind.TheVariants.{OutOfMemory};
ghost use Rattle.clap.specs.declared.builder.command.Command.TheViews.{out-Command};
ghost use Rattle.arguments.specs.Arguments.{HasMatches, IsFaultIn, IsFaultOf, IsFaultOfAJob, IsFaultOfKind, IsJobIn};
ghost use Rattle.arguments.specs.Arguments.{IsJobOf};
ghost use Rattle.arguments.specs.Arguments.{IsWhole, IsWholeIn, NamesNoRelation, cmp_app, file_rule, hide_rule};
ghost use Rattle.arguments.specs.Arguments.{job_app};
ghost use Rattle.arguments.specs.Arguments.{min_app, needed_file_rule, program_app, relation_in, relation_rule};
ghost use Rattle.arguments.specs.Arguments.{stats_rule};
ghost use Rattle.arguments.specs.Arguments.{relation_word};
ghost use Rattle.arguments.specs.declared.arguments.WordFault.TheVariants.{Memory};

use clap::error::ErrorKind;
use clap::{Arg, ArgAction, ArgMatches, Command, Error};
use std::alloc::{AllocError, Global};
use theory::Relation;

/// The version of the program, which `--version` shows.
pub const VERSION: &str = "0.1.0";

/// The part of the help text that follows the list of options.
const NOTES: &str = "\
Labels:
  i is the internal action. tau, as mCRL2 writes it, is a label like any other.
  For a system of mCRL2, hide a list of the one line tau:
    autbis min --relation branching --hide <(echo tau) model.aut
    echo tau | autbis min --relation branching --hide /dev/stdin model.aut

Files:
  Without FILE, min reads standard input; on a terminal it waits for a text,
  which Ctrl-D ends. A folder cannot be read, and - is the name of a file.

Exit status:
  0  min: the system was written; cmp: TRUE; help or the version was printed
  1  cmp: FALSE
  2  a text or the hide list is faulty
  3  wrong usage, or an unknown relation
  4  out of memory
  5  a file cannot be opened, or a read or write failed

Examples:
  autbis min --relation branching model.aut > smallest.aut
  autbis cmp --relation branching model.aut wanted.aut
";

/// The last line of the help for `min` and for `cmp`.
const MORE: &str = "autbis --help tells of labels, exit statuses and examples.";

/// The description of `min` in the help text.
const ABOUT_MIN: &str = "Writes the equivalent system with the fewest states";

/// The description of `cmp` in the help text.
const ABOUT_CMP: &str = "Says whether two systems are equivalent: TRUE or FALSE";

/// A job is a subcommand with its options. The command line asks the program to do a job.
#[derive(Debug, Drop, PartialEq, Eq)]
pub enum Job {
    /// Minimise the system in `file`, or in standard input if there is no file.
    Min {
        /// The relation modulo which the system is minimised.
        relation: Relation,
        /// Whether the option `--stats` is given. With this option, the program writes a line with the size of the
        /// system, and with the numbers of rounds and visits (reads of transitions) of the minimisation.
        stats: bool,
        hide: Option<String>,
        file: Option<String>,
    },
    /// Decide whether the systems in two files are equivalent.
    Cmp {
        /// The relation modulo which the systems are compared.
        relation: Relation,
        hide: Option<String>,
        first: String,
        second: String,
    },
}

/// The reason why the command line does not lead to a job (a subcommand with its options).
#[derive(Debug, Drop, PartialEq, Eq)]
pub enum WordFault {
    /// The command line is incorrect. The string is the error message.
    Usage(String),
    /// The command line names a relation that does not exist. The string is the name that the command line gives.
    Relation(String),
    /// The arguments ask for help or for the version. The string is the text to show.
    Help(String),
    /// An allocation failed.
    Memory,
}

impl From<AllocError> for WordFault {
    ghost from_gives = { λ _ fault. fault ≡ Memory };

    fn from(_refused: AllocError) -> WordFault {
        WordFault::Memory
    }
}

/// Returns the job (the subcommand with its options) that the command line asks for. The first item of `words` is the
/// name of the program.
///
/// # Errors
///
/// - `Usage`: the command line is incorrect.
/// - `Relation`: the command line names a relation that does not exist.
/// - `Help`: the arguments ask for help or for the version.
/// - `Memory`: an allocation failed.
pub fn command(alloc: Global, words: Vec<String>) -> Result<Job, WordFault>
    ensures job { IfOk result (IsJobOf (map string_bytes words.items)) }
    ensures fault { IfErr result (IsFaultOf (map string_bytes words.items)) }
{
    let described = described(alloc)?;
    match described.try_get_matches_from(words.as_slice()) {
        Ok(matches) => job_of(alloc, &matches),
        Err(error) => Err(fault_of(alloc, &error)),
    }
}

/// Builds the description of the whole command line for `clap`.
fn described<'a>(alloc: Global) -> Result<Command<'a>, AllocError>
    ensures { IfOk result (λ c. app_of c ≡ program_app) }
{
    // The prover needs a lot of time for each description that is dropped after a failed allocation. Therefore `min` is
    // built before the command line, and the name of the program is set after `min` is added.
    let min = described_min(alloc)?;
    Command::new(alloc, "autbis")
        .about("Minimises and compares labelled transition systems in the Aldebaran (.aut) format")
        .version(VERSION)
        .after_help(NOTES)
        .subcommand_required(true)
        .subcommand(min)?
        .bin_name("autbis")?
        .subcommand(described_cmp(alloc)?)
}

/// Builds the description of the subcommand `min` and its arguments for `clap`.
fn described_min<'a>(alloc: Global) -> Result<Command<'a>, AllocError>
    ensures words { IfOk result (λ c. app_of c ≡ min_app) }
    ensures local { IfOk result (λ c. (out-Command c).has_globals ≡ false) }
{
    described_job(alloc, "min", ABOUT_MIN)?
        .arg(stats_flag(alloc))?
        .arg(file(alloc, "file", "The system; standard input if there is none"))
}

/// Builds the description of the subcommand `cmp` and its arguments for `clap`.
fn described_cmp<'a>(alloc: Global) -> Result<Command<'a>, AllocError>
    ensures words { IfOk result (λ c. app_of c ≡ cmp_app) }
    ensures local { IfOk result (λ c. (out-Command c).has_globals ≡ false) }
{
    described_job(alloc, "cmp", ABOUT_CMP)?
        .arg(needed_file(alloc, "first", "The first system"))?
        .arg(needed_file(alloc, "second", "The second system"))
}

/// Builds the description of a subcommand (`min` or `cmp`) for `clap`. The description consists of the parts that both
/// subcommands share: the name and the summary of the subcommand, and the options `--relation` and `--hide`.
fn described_job<'a>(
    alloc: Global,
    name: &'a str,
    about: &'a str,
) -> Result<Command<'a>, AllocError>
    ensures words { IfOk result (λ c. app_of c ≡ job_app name.now) }
    ensures local { IfOk result (λ c. (out-Command c).has_globals ≡ false) }
{
    Command::new(alloc, name)
        .about(about)
        .after_help(MORE)
        .arg(relation_option(alloc))?
        .arg(hide_option(alloc))
}

/// Builds the description of the option `--relation WORD` for `clap`. Whether the value of this option is the name of a
/// relation is checked later, by the function `relation_of`.
fn relation_option<'a>(alloc: Global) -> Arg<'a>
    ensures rule { rule_of result ≡ relation_rule }
    ensures local { result.global ≡ false }
{
    Arg::new(alloc, "relation")
        .long("relation")
        .value_name("WORD")
        .default_value("strong")
        .help("The bisimulation: strong or branching")
}

/// Builds the description of the option `--hide FILE` for `clap`.
fn hide_option<'a>(alloc: Global) -> Arg<'a>
    ensures rule { rule_of result ≡ hide_rule }
    ensures local { result.global ≡ false }
{
    Arg::new(alloc, "hide").long("hide").value_name("FILE").help(
        "A list of labels, one a line, that are made internal first",
    )
}

/// Builds the description of the flag `--stats` for `clap`.
fn stats_flag<'a>(alloc: Global) -> Arg<'a>
    ensures rule { rule_of result ≡ stats_rule }
    ensures local { result.global ≡ false }
{
    Arg::new(alloc, "stats")
        .long("stats")
        .action(ArgAction::SetTrue)
        .help("Say on standard error how many rounds and visits were made")
}

/// Builds the description of an optional file argument for `clap`.
fn file<'a>(alloc: Global, id: &'a str, help: &'a str) -> Arg<'a>
    ensures rule { rule_of result ≡ file_rule id.now }
    ensures local { result.global ≡ false }
{
    Arg::new(alloc, id).value_name("FILE").help(help)
}

/// Builds the description of a mandatory file argument for `clap`.
fn needed_file<'a>(alloc: Global, id: &'a str, help: &'a str) -> Arg<'a>
    ensures rule { rule_of result ≡ needed_file_rule id.now }
    ensures local { result.global ≡ false }
{
    file(alloc, id, help).required(true)
}

/// Makes the job (the subcommand with its options) from the values that `clap` has found.
fn job_of(alloc: Global, matches: &ArgMatches<'_>) -> Result<Job, WordFault>
    ensures job { IfOk result (IsJobIn (subcommand_rows_of matches.now)) }
    ensures fault { IfErr result (IsFaultIn (subcommand_rows_of matches.now)) }
    ensures asked { IsWholeIn (subcommand_rows_of matches.now) → IfErr result IsFaultOfAJob }
{
    if let Some(min) = matches.subcommand_matches("min") {
        return min_of(alloc, min);
    }
    match matches.subcommand_matches("cmp") {
        Some(cmp) => cmp_of(alloc, cmp),
        None => Err(WordFault::Usage(String::new(alloc))),
    }
}

/// Makes the job `Job::Min` (the subcommand `min` with its options) from the values that `clap` has found for the
/// arguments of `min`.
fn min_of(alloc: Global, matches: &ArgMatches<'_>) -> Result<Job, WordFault>
    ensures job { IfOk result (HasMatches (codes "min") (rows_of (found_of matches.now))) }
    ensures fault { IfErr result (NamesNoRelation (relation_in (rows_of (found_of matches.now)))) }
{
    let relation = relation_value(alloc, matches)?;
    let stats = matches.get_flag("stats");
    let hide = value_of(alloc, matches, "hide")?;
    let file = value_of(alloc, matches, "file")?;
    Ok(Job::Min {
        relation,
        stats,
        hide,
        file,
    })
}

/// Makes the job `Job::Cmp` (the subcommand `cmp` with its options) from the values that `clap` has found for the
/// arguments of `cmp`.
fn cmp_of(alloc: Global, matches: &ArgMatches<'_>) -> Result<Job, WordFault>
    ensures job { IfOk result (HasMatches (codes "cmp") (rows_of (found_of matches.now))) }
    ensures fault { let rows = rows_of (found_of matches.now) in
        IfErr result (IsFaultIn (Some (codes "cmp", rows))) }
    ensures asked { IsWhole (codes "cmp") (rows_of (found_of matches.now)) →
        IfErr result IsFaultOfAJob }
{
    let relation = relation_value(alloc, matches)?;
    let Some(first) = value_of(alloc, matches, "first")? else {
        return Err(WordFault::Usage(String::new(alloc)));
    };
    let Some(second) = value_of(alloc, matches, "second")? else {
        return Err(WordFault::Usage(String::new(alloc)));
    };
    Ok(Job::Cmp {
        relation,
        hide: value_of(alloc, matches, "hide")?,
        first,
        second,
    })
}

/// Returns the relation that the command line names. If the command line names no relation, the result is strong
/// bisimilarity.
fn relation_value(alloc: Global, matches: &ArgMatches<'_>) -> Result<Relation, WordFault>
    ensures ok { IfOk result (λ relation. relation_in (rows_of (found_of matches.now))
        ≡ relation_word relation) }
    ensures err { IfErr result (NamesNoRelation (relation_in (rows_of (found_of matches.now)))) }
{
    relation_of(alloc, matches.get_str("relation").unwrap_or("strong"))
}

/// Returns a copy of the value that `clap` has found for the argument `id`. The result is `None` if `clap` has found no
/// value.
fn value_of(alloc: Global, matches: &ArgMatches<'_>, id: &str) -> Result<Option<String>, AllocError>
    ensures { IfOk result (λ text. first_of id.now (rows_of (found_of matches.now))
        ≡ option_map string_bytes text) }
{
    match matches.get_str(id) {
        Some(text) => Ok(Some(String::from_str(alloc, text)?)),
        None => Ok(None),
    }
}

/// Returns the relation whose name is `word`, or an error if there is no such relation.
fn relation_of(alloc: Global, word: &str) -> Result<Relation, WordFault>
    ensures ok { IfOk result (λ relation. word.now ≡ relation_word relation) }
    ensures err { IfErr result (NamesNoRelation word.now) }
{
    if word == "strong" {
        return Ok(Relation::Strong);
    }
    if word == "branching" {
        return Ok(Relation::Branching);
    }
    Err(WordFault::Relation(String::from_str(alloc, word)?))
}

/// Converts an error that `clap` reports into a `WordFault`. The error is a request for help or for the version, an
/// incorrect command line, or a failed allocation.
fn fault_of(alloc: Global, error: &Error) -> WordFault
    ensures kind { IsFaultOfKind (kind_of error.now) result }
    ensures memory { kind_of error.now ≡ OutOfMemory → result ≡ Memory }
{
    if error.kind() == ErrorKind::OutOfMemory {
        return WordFault::Memory;
    }
    match error.to_string(alloc) {
        Ok(text) if error.use_stderr() => WordFault::Usage(text),
        Ok(text) => WordFault::Help(text),
        Err(_) => WordFault::Memory,
    }
}
