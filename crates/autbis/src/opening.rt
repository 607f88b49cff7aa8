//! Opens the files of a job (the task that the command line asks for). The input files are opened first, and then the
//! hide list, which is a file with the labels to hide.
ghost use Rattle.std.specs.Prelude.{◌≡◌, ◌≤◌, ◌+◌, ◌-◌, [], ◌∷◌, IfSome, IfOk, IfErr, OnOk, MatchResult, Some};
ghost use Rattle.std.specs.Prelude.{option_map, option_to_list, string_bytes};
ghost use Rattle.autbis.specs.Files.{HasAll, IsRefused, files_used};
ghost use Rattle.autbis.specs.Jobs.{HidesNamed, IsGivenUp, files_of, hide_of, texts_of};
ghost use Rattle.autbis.specs.Opened.{AreOpened, HasOneFailed, HaveNotFailed, IsOpened, OnlyCloses, count_of};

use crate::opener::Opener;
use crate::reports::{cannot_open, report};
use arguments::Job;
use autfmt::{Hidden, read_hidden};
use std::alloc::Global;
use std::io::Write;

/// The inputs of a job (the task that the command line asks for), after their files have been opened.
#[derive(Drop)]
pub enum Texts<File> {
    /// The job is to minimise the system in standard input.
    Input,
    /// The job is to minimise the system in this file.
    One(File),
    /// The job is to compare the systems in these two files.
    Two(File, File),
}

/// The inputs of a job (the task that the command line asks for) after their files have been opened, and the labels of
/// the hide list, which is a file with the labels to hide.
#[derive(Drop)]
pub struct Opened<File> {
    pub texts: Texts<File>,
    pub hidden: Hidden,
}

/// The exit status of a job (the task that the command line asks for) that ended early. An error message has already
/// been written.
#[derive(Clone, Copy)]
pub struct GivenUp {
    pub status: u8,
}

/// Opens the inputs of the job (the task that the command line asks for). Then the function opens, reads and closes the
/// hide list, which is a file with the labels to hide. If a file cannot be opened, the function opens no other file
/// after it. The function writes error messages to `e`.
///
/// # Errors
///
/// The result is an error if the job ends early. In this case, all files have been closed. The exit status in the error
/// is 2 if the hide list is incorrect, 4 if memory ran out, and 5 if a file cannot be opened or the hide list cannot be
/// read.
pub fn open_job<F: Opener, E: Write>(
    alloc: Global,
    job: &Job,
    files: &mut F,
    e: &mut E,
) -> Result<Opened<F::File>, GivenUp>
    requires sound { F.failures files.old ≡ 0 }
    ensures opened { IfOk result (IsOpened F.File.rest F.File.failures
        (files_used F.holds F.opened F.failures F.lost files.old files.new) job.now) }
    ensures given_up { IfErr result (λ given_up.
        IsGivenUp (files_used F.holds F.opened F.failures F.lost files.old files.new)
        (files_of job.now) (hide_of job.now) given_up.status) }
    ensures unclosed { MatchResult result
        (λ opened. F.unclosed files.new ≤ F.unclosed files.old + count_of opened.texts)
        (λ _. F.unclosed files.new ≤ F.unclosed files.old) }
    ensures silent { OnOk result (e.new ≡ e.old) }
{
    let texts = open_texts(job, files, e)?;
    let (Job::Min { hide, .. } | Job::Cmp { hide, .. }) = job;
    match hidden_of(alloc, files, hide, e) {
        Ok(hidden) => Ok(Opened { texts, hidden }),
        Err(given_up) => {
            close_texts(files, texts);
            Err(given_up)
        }
    }
}

/// Opens the inputs of a job (the task that the command line asks for). If an input cannot be opened, the job ends
/// early with the exit status 5, and the inputs that have already been opened are closed.
fn open_texts<F: Opener, E: Write>(
    job: &Job,
    files: &mut F,
    e: &mut E,
) -> Result<Texts<F::File>, GivenUp>
    requires sound { F.failures files.old ≡ 0 }
    ensures texts { IfOk result
        (AreOpened F.File.rest F.File.failures (F.holds files.old) job.now) }
    ensures order { let used = files_used F.holds F.opened F.failures F.lost files.old files.new in
        MatchResult result (λ _. HasAll used (texts_of job.now))
        (λ given_up. IsRefused used (texts_of job.now) given_up.status) }
    ensures none_lost { F.lost files.new ≡ F.lost files.old }
    ensures unclosed { MatchResult result
        (λ texts. F.unclosed files.new ≤ F.unclosed files.old + count_of texts)
        (λ _. F.unclosed files.new ≤ F.unclosed files.old) }
    ensures silent { OnOk result (e.new ≡ e.old) }
{
    match job {
        Job::Min { file: None, .. } => Ok(Texts::Input),
        Job::Min {
            file: Some(name),
            ..
        } => Ok(Texts::One(open_named(files, name.as_str(), e)?)),
        Job::Cmp { first, second, .. } => {
            let first = open_named(files, first.as_str(), e)?;
            match open_named(files, second.as_str(), e) {
                Ok(second) => Ok(Texts::Two(first, second)),
                Err(given_up) => {
                    files.close(first);
                    Err(given_up)
                }
            }
        }
    }
}

/// Opens the file `name`. If the file cannot be opened, the function writes a message to `e` (the stream for error
/// messages), and returns the exit status 5.
fn open_named<F: Opener, E: Write>(files: &mut F, name: &str, e: &mut E) -> Result<F::File, GivenUp>
    requires sound { F.failures files.old ≡ 0 }
    ensures file { IfOk result (λ file. F.File.failures file ≡ 0) }
    ensures bytes { IfSome (F.holds files.old name.now) (λ bytes.
        IfOk result (λ file. F.File.rest file ≡ Some bytes)) }
    ensures order { let used = files_used F.holds F.opened F.failures F.lost files.old files.new in
        MatchResult result (λ _. HasAll used (name.now ∷ []))
        (λ given_up. IsRefused used (name.now ∷ []) given_up.status) }
    ensures none_lost { F.lost files.new ≡ F.lost files.old }
    ensures unclosed { MatchResult result (λ _. F.unclosed files.new ≤ F.unclosed files.old + 1)
        (λ _. F.unclosed files.new ≤ F.unclosed files.old) }
    ensures silent { OnOk result (e.new ≡ e.old) }
{
    match files.open(name) {
        Ok(file) => Ok(file),
        Err(_) => Err(GivenUp {
            status: cannot_open(name, e),
        }),
    }
}

/// Opens, reads and closes the hide list, which is the file `hide` with the labels to hide. The result contains the
/// labels of the hide list. If `hide` is `None`, there is no hide list, and the result is empty. The possible errors
/// are the errors of `open_job`.
fn hidden_of<F: Opener, E: Write>(
    alloc: Global,
    files: &mut F,
    hide: &Option<String>,
    e: &mut E,
) -> Result<Hidden, GivenUp>
    requires sound { F.failures files.old ≡ 0 }
    ensures labels { IfOk result
        (HidesNamed (F.holds files.old) (option_map string_bytes hide.now)) }
    ensures all { OnOk result (HasAll
        (files_used F.holds F.opened F.failures F.lost files.old files.new)
        (option_to_list (option_map string_bytes hide.now))) }
    ensures none_lost { OnOk result (F.lost files.new ≡ F.lost files.old) }
    ensures given_up { let name = option_map string_bytes hide.now in IfErr result (λ given_up.
        IsGivenUp (files_used F.holds F.opened F.failures F.lost files.old files.new)
        (option_to_list name) name given_up.status) }
    ensures unclosed { F.unclosed files.new ≤ F.unclosed files.old }
    ensures silent { OnOk result (e.new ≡ e.old) }
{
    let Some(name) = hide else {
        return Ok(Hidden::none(alloc));
    };
    let mut file = open_named(files, name.as_str(), e)?;
    let labels = read_hidden(alloc, &mut file);
    files.close(file);
    match labels {
        Ok(hidden) => Ok(hidden),
        Err(fault) => Err(GivenUp {
            status: report(&fault, name.as_str(), e),
        }),
    }
}

/// Closes the input files of a job (the task that the command line asks for).
pub fn close_texts<F: Opener>(files: &mut F, texts: Texts<F::File>)
    ensures sound { HaveNotFailed F.File.failures texts → F.lost files.new ≡ F.lost files.old }
    ensures lost { HasOneFailed F.File.failures texts → F.lost files.new ≡ 1 }
    ensures unclosed { F.unclosed files.new ≡ F.unclosed files.old - count_of texts }
    ensures others { OnlyCloses
        (files_used F.holds F.opened F.failures F.lost files.old files.new) }
{
    match texts {
        Texts::Input => {}
        Texts::One(file) => files.close(file),
        Texts::Two(first, second) => {
            files.close(first);
            files.close(second);
        }
    }
}
