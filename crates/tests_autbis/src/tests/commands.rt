//! Tests of command lines. A command line asks for a job, which is a subcommand with its options, or it asks for help
//! or is incorrect. The tests check the job, or the text and the exit status that are reported.
use autbis::{Job, VERSION, WordFault, command, report_words};
use quotient::Relation;
use std::alloc::{AllocError, Global};
use std::io::{self, Write};
use std::test::Fail;
use test_support::check;

/// Splits the line at each `mark`, and returns the parts between the marks as command-line arguments.
pub(crate) fn words_of(alloc: Global, line: &str, mark: char) -> Result<Vec<String>, AllocError> {
    let mut words = Vec::new(alloc);
    for word in line.split(mark) {
        words.push(String::from_str(alloc, word)?)?;
    }
    Ok(words)
}

/// Returns the result of `command` for a command line. The arguments in the line are separated by spaces.
fn asked(alloc: Global, line: &str) -> Result<Job, WordFault> {
    let words = words_of(alloc, line, ' ')?;
    command(alloc, words)
}

/// The fields of a job (a subcommand with its options): its relation, the flag `--stats` if it is a minimisation, its
/// hide list, and its files.
type Parts<'a> = (
    Relation,
    Option<bool>,
    Option<&'a str>,
    Option<&'a str>,
    Option<&'a str>,
);

fn parts(job: &Job) -> Parts {
    match job {
        Job::Min {
            relation,
            stats,
            hide,
            file,
        } => (
            *relation,
            Some(*stats),
            hide.as_deref(),
            file.as_deref(),
            None,
        ),
        Job::Cmp {
            relation,
            hide,
            first,
            second,
        } => (
            *relation,
            None,
            hide.as_deref(),
            Some(first.as_str()),
            Some(second.as_str()),
        ),
    }
}

/// Command lines, and the fields of the job (a subcommand with its options) that `command` must return for each command
/// line.
const JOBS: [(&str, Parts); 7] = [
    (
        "autbis min",
        (Relation::Strong, Some(false), None, None, None),
    ),
    (
        "autbis min --stats a.aut --relation=branching",
        (Relation::Branching, Some(true), None, Some("a.aut"), None),
    ),
    (
        "autbis min -- --stats",
        (Relation::Strong, Some(false), None, Some("--stats"), None),
    ),
    (
        "autbis min --relation strong a.aut --hide a.hide",
        (
            Relation::Strong,
            Some(false),
            Some("a.hide"),
            Some("a.aut"),
            None,
        ),
    ),
    (
        "autbis cmp a.aut b.aut",
        (Relation::Strong, None, None, Some("a.aut"), Some("b.aut")),
    ),
    (
        "autbis cmp a.aut --relation branching b.aut",
        (
            Relation::Branching,
            None,
            None,
            Some("a.aut"),
            Some("b.aut"),
        ),
    ),
    (
        "autbis cmp --hide a.hide b.aut -- --stats",
        (
            Relation::Strong,
            None,
            Some("a.hide"),
            Some("b.aut"),
            Some("--stats"),
        ),
    ),
];

#[test]
fn command_words(rt: HostRuntime) -> Result<(), Fail> {
    for (line, wanted) in &JOBS {
        let job = asked(rt.alloc(), line)?;
        check(line, parts(&job) == *wanted)?;
    }
    Ok(())
}

/// The result for a command line that runs no subcommand. Such a command line asks for help or for the version, or it
/// is incorrect. The result consists of the error that `command` returns, the exit status, the help text that is
/// written to standard output, and the message on standard error.
#[derive(Drop)]
struct Answer {
    fault: WordFault,
    status: u8,
    shown: Vec<u8>,
    said: Vec<u8>,
}

/// Returns the result for a command line that asks for help or for the version, or is incorrect. Fails if the command
/// line asks for a minimisation or a comparison.
fn answered(alloc: Global, line: &str) -> Result<Answer, Fail> {
    match asked(alloc, line) {
        Ok(_) => Err(Fail::new(line)),
        Err(fault) => Ok(reported(alloc, fault)),
    }
}

fn reported(alloc: Global, fault: WordFault) -> Answer {
    let mut shown = Vec::new(alloc);
    let mut said = Vec::new(alloc);
    let status = report_words(&fault, &mut shown, &mut said);
    Answer {
        fault,
        status,
        shown,
        said,
    }
}

/// Command lines that name a relation which does not exist. Each entry consists of the command line, the name of the
/// relation, and the message.
const NO_RELATIONS: [(&str, &str, &str); 4] = [
    (
        "autbis min a.aut --relation=weak",
        "weak",
        "autbis: unknown relation: weak\n",
    ),
    (
        "autbis min a.aut --relation=Strong",
        "Strong",
        "autbis: unknown relation: Strong\n",
    ),
    (
        "autbis min a.aut --relation=Branching",
        "Branching",
        "autbis: unknown relation: Branching\n",
    ),
    (
        "autbis min a.aut --relation=",
        "",
        "autbis: unknown relation: \n",
    ),
];

/// Returns true if the error `found` is that no relation has the name `word`, and this error is reported with the
/// message `message`.
fn is_no_relation(found: &Answer, word: &str, message: &str) -> bool {
    match &found.fault {
        WordFault::Relation(named) => {
            named.as_str() == word
                && found.status == 3
                && found.shown.is_empty()
                && found.said.as_slice() == message.as_bytes()
        }
        _ => false,
    }
}

#[test]
fn unknown_relation(rt: HostRuntime) -> Result<(), Fail> {
    for (line, word, message) in &NO_RELATIONS {
        let found = answered(rt.alloc(), line)?;
        check(line, is_no_relation(&found, word, message))?;
    }
    Ok(())
}

const NO_JOBS: [&str; 12] = [
    "autbis",
    "autbis maximise a",
    "autbis cmp a",
    "autbis min a b",
    "autbis cmp",
    "autbis cmp a b c",
    "autbis cmp --stats a b",
    "autbis min --relation strong --relation strong",
    "autbis min --stats --stats",
    "autbis min --hide a --hide b",
    "autbis min --hide",
    "autbis min --loud",
];

/// Returns whether the error is a usage error of `clap`, the library that parses command lines.
fn is_no_job(found: &Answer) -> bool {
    match &found.fault {
        WordFault::Usage(text) => {
            found.status == 3
                && found.shown.is_empty()
                && found.said.as_slice() == text.as_bytes()
                && text.as_str().starts_with("error: ")
        }
        _ => false,
    }
}

#[test]
fn usage_faults(rt: HostRuntime) -> Result<(), Fail> {
    for line in &NO_JOBS {
        let found = answered(rt.alloc(), line)?;
        check(line, is_no_job(&found))?;
    }
    Ok(())
}

/// A writer that fails at each write.
#[derive(Drop)]
pub(crate) struct Closed;

impl Write for Closed {
    fn write(&mut self, _buf: &[u8]) -> io::Result<usize> {
        Ok(0)
    }

    fn flush(&mut self) -> io::Result<()> {
        Ok(())
    }
}

/// Reports the error to a standard output on which each write fails. Returns true if the failed write is reported on
/// standard error, and the exit status is 5.
fn is_closed(alloc: Global, fault: &WordFault) -> bool {
    let mut said = Vec::new(alloc);
    let status = report_words(fault, &mut Closed, &mut said);
    status == 5 && said.as_slice() == b"autbis: read or write failed\n".as_slice()
}

/// Returns true if the command line asks for a help text that contains `part`, and the command writes exactly this text
/// to standard output and succeeds.
fn helps(found: &Answer, part: &str) -> bool {
    match &found.fault {
        WordFault::Help(text) => shows(found, text) && text.as_str().contains(part),
        _ => false,
    }
}

/// Returns true if the command writes exactly `text` to standard output, writes nothing to standard error, and returns
/// the exit status 0.
fn shows(found: &Answer, text: &str) -> bool {
    found.status == 0 && found.said.is_empty() && found.shown.as_slice() == text.as_bytes()
}

const HELP: [(&str, &str); 4] = [
    ("autbis --help", "min"),
    ("autbis --help", "cmp"),
    ("autbis cmp --help", "--hide <FILE>"),
    ("autbis min --help", "--relation <WORD>"),
];

#[test]
fn help(rt: HostRuntime) -> Result<(), Fail> {
    for (line, part) in &HELP {
        let found = answered(rt.alloc(), line)?;
        check(line, helps(&found, part))?;
        check(line, is_closed(rt.alloc(), &found.fault))?;
    }
    Ok(())
}

#[test]
fn version(rt: HostRuntime) -> Result<(), Fail> {
    let text = format!(in rt.alloc(); "autbis {VERSION}\n")?;
    for line in ["autbis --version", "autbis -V"] {
        let found = answered(rt.alloc(), line)?;
        check(line, shows(&found, &text))?;
    }
    Ok(())
}
