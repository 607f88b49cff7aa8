//! This module runs the whole program, from its command line to its exit status. The caller supplies the files and the
//! streams.
ghost use Rattle.std.specs.Prelude.{◌≡◌, ◌⊎◌, ◌≤◌, IfOk, IfErr, IsTrue};
ghost use Rattle.autbis.specs.Ends.{EndsRun};
ghost use Rattle.autbis.specs.Files.{files_used};
ghost use Rattle.autbis.specs.Jobs.{relation_of, request_of, shows_counts};
ghost use Rattle.autbis.specs.Opened.{AreFiles, HasOneFailed, HaveNotFailed, contents_of, count_of};
ghost use Rattle.autbis.specs.Programs.{AnswersWords, AskFor, AskForNone, ShowsStats};
ghost use Rattle.autbis.specs.Reports.{ShowsCountsOf};
ghost use Rattle.autbis.specs.Runs.{used};

use crate::opener::Opener;
use crate::opening::{Opened, Texts, close_texts, open_job};
use crate::program::{cmp_program, min_program};
use crate::reports::answer_words;
use arguments::{Job, WordFault, command};
use autfmt::{Limits, Sink, Source};
use quotient::Relation;
use std::alloc::Global;
use std::io::{self, ErrorKind, Write};

/// The error message for a command line that is not UTF-8.
const NOT_UTF8: &str = "autbis: command words are not UTF-8\n";

/// The name that messages use for standard input.
const INPUT: &str = "standard input";

/// Does the job (the task) that the command line `words` asks for, and returns the exit status. The first word of the
/// command line is the name of the program. The opener `files` (an object that opens files by their names) opens and
/// closes all files. The exit status has one of the following values:
///
/// - 0 after a success.
/// - 1 after a comparison of two systems that are not equivalent.
/// - 2 if an input or the hide list (the file with the labels to hide) is incorrect.
/// - 3 if the command line is incorrect.
/// - 4 if memory ran out.
/// - 5 if a file cannot be opened, or a read or write failed.
///
/// The result of the job, or the help text, is written to `output`. The input files are opened first. Then the hide
/// list is opened and read, and after that the inputs are read. All files are closed at the end. If the command line
/// names no input file, the system to minimise is read from `input`, the standard input. All error messages are written
/// to `e`. If the exit status is 0 or 1, nothing is written to `e` except for the line that `--stats` asks for.
pub fn main_program<F: Opener, R: Source, W: Sink, E: Write>(
    alloc: Global,
    words: io::Result<Vec<String>>,
    files: &mut F,
    input: &mut R,
    output: &mut W,
    e: &mut E,
) -> u8
    requires files { F.failures files.old ≡ 0 }
    requires input { R.failures input.old ≡ 0 }
    requires output { W.failures output.old ≡ 0 }
    ensures answer { AnswersWords words
        (files_used F.holds F.opened F.failures F.lost files.old files.new)
        (used R.rest R.failures input.old input.new)
        (used W.written W.failures output.old output.new) result }
    ensures closed { F.unclosed files.new ≤ F.unclosed files.old }
    ensures silent { result ≤ 1 → (e.new ≡ e.old)
        ⊎ ShowsStats words (F.holds files.old) (R.rest input.old)
        (E.contents e.old) (E.contents e.new) }
{
    let job = match asked(alloc, words) {
        Ok(job) => job,
        Err(fault) => return answer_words(&fault, output, e),
    };
    match open_job(alloc, &job, files, e) {
        Ok(mut opened) => {
            let status = run_opened(alloc, &job, &mut opened, input, output, e);
            close_texts(files, opened.texts);
            status
        }
        Err(given_up) => given_up.status,
    }
}

/// Returns the job that the command line asks for: a subcommand with its options.
fn asked(alloc: Global, words: io::Result<Vec<String>>) -> Result<Job, WordFault>
    ensures job { IfOk result (AskFor words) }
    ensures fault { IfErr result (AskForNone words) }
{
    match words {
        Ok(words) => command(alloc, words),
        Err(error) if error.kind() == ErrorKind::OutOfMemory => Err(WordFault::Memory),
        Err(_) => Err(WordFault::Usage(String::from_str(alloc, NOT_UTF8)?)),
    }
}

/// Returns the relation modulo which the job (the task that the command line asks for) minimises or compares systems.
fn relation_of(job: &Job) -> Relation
    ensures { result ≡ relation_of job.now }
{
    match job {
        Job::Min { relation, .. } | Job::Cmp { relation, .. } => *relation,
    }
}

/// Returns whether the job (the task that the command line asks for) writes the line that `--stats` asks for.
fn shows_counts(job: &Job) -> bool
    ensures { result ≡ shows_counts job.now }
{
    matches!(job, Job::Min { stats: true, .. })
}

/// Minimises or compares the inputs of the job (the task that the command line asks for), and returns the exit status.
/// The status is 0 after a success, 1 if the two systems are not equivalent, 2 if an input is incorrect, 4 if memory
/// ran out, and 5 if a read or write failed. If the status is at most 4, no read from an input has failed. If the job
/// names no input file, the system to minimise is read from `input`, the standard input. Error messages are written to
/// `e`. If the status is 0 or 1, nothing is written to `e` except for the line that `--stats` asks for.
fn run_opened<S: Source, R: Source, W: Sink, E: Write>(
    alloc: Global,
    job: &Job,
    opened: &mut Opened<S>,
    input: &mut R,
    output: &mut W,
    e: &mut E,
) -> u8
    requires texts { HaveNotFailed S.failures opened.old.texts }
    requires input { R.failures input.old ≡ 0 }
    requires output { W.failures output.old ≡ 0 }
    ensures ends { EndsRun (request_of job.now opened.old.hidden)
        (contents_of S.rest (R.rest input.old) opened.old.texts)
        ((R.failures input.new ≡ 0) × HaveNotFailed S.failures opened.new.texts)
        ((R.failures input.new ≡ 1)
        ⊎ (AreFiles opened.old.texts × HasOneFailed S.failures opened.new.texts))
        (used W.written W.failures output.old output.new) result }
    ensures unread { AreFiles opened.old.texts → input.new ≡ input.old }
    ensures count { count_of opened.new.texts ≡ count_of opened.old.texts }
    ensures silent { result ≤ 1 → (e.new ≡ e.old)
        ⊎ (IsTrue (shows_counts job.now) × ShowsCountsOf (request_of job.now opened.old.hidden)
        (contents_of S.rest (R.rest input.old) opened.old.texts)
        (E.contents e.old) (E.contents e.new)) }
{
    let (rel, stats) = (relation_of(job), shows_counts(job));
    let (lim, h) = (&Limits::file(), &opened.hidden);
    let (name, next) = names_of(job);
    match &mut opened.texts {
        Texts::Input => min_program(alloc, input, name, output, e, rel, stats, lim, h),
        Texts::One(file) => min_program(alloc, file, name, output, e, rel, stats, lim, h),
        Texts::Two(a, b) => cmp_program(alloc, a, name, b, next, output, e, rel, lim, h),
    }
}

/// Returns the two names that error messages use for the inputs of the job (the task that the command line asks for).
/// If the job has only one input, both names are the name of this input.
fn names_of(job: &Job) -> (&str, &str) {
    match job {
        Job::Min { file: None, .. } => (INPUT, INPUT),
        Job::Min {
            file: Some(name),
            ..
        } => (name.as_str(), name.as_str()),
        Job::Cmp { first, second, .. } => (first.as_str(), second.as_str()),
    }
}
