//! An opener is an object that opens files by their names. This module defines a trait for openers, and an opener for
//! the files of the file system.
ghost use Rattle.std.specs.Prelude.{◌≡◌, ◌≤◌, ◌+◌, ◌-◌, ℕ, List, [], ◌∷◌, None, Some, Option, IfSome, IfOk};
ghost use Rattle.std.specs.Prelude.{MatchResult};
ghost use Rattle.autbis.specs.Files.{Name, Opens};

use autfmt::{Broken, FromRead, Source};
use std::fs;
use std::marker::Model;
use std::rt::Files;

/// An opener is an object that opens files by their names, and closes them. Each file is read from its beginning. Once
/// the opener has failed to open a file, it must not be asked to open another file.
pub trait Opener {
    /// The type of an open file.
    type File: Source + Drop;

    // The names of all files that the opener has been asked to open. The value is `None` if the contract of the opener
    // does not state these names.
    ghost opened: { Self → Option (List Name) };

    // The value is 1 if the opener could not open a file, and otherwise 0.
    ghost failures: { Self → ℕ };

    // The value is 1 if a read from a file had failed before the file was closed, and otherwise 0.
    ghost lost: { Self → ℕ };

    // The number of files that the opener has opened and not closed. The value is always 0 if the opener does not count
    // these files.
    ghost unclosed: { Self → ℕ };

    // The contents of the file that has the given name. The value is `None` if the contract of the opener does not
    // state the contents.
    ghost holds: { Self → Name → Option (List ℕ) };

    /// Opens the file with the name `name`.
    ///
    /// # Errors
    ///
    /// `Broken` if the file cannot be opened. After this error, the value `failures` of the opener is 1.
    fn open(&mut self, name: &str) -> Result<Self::File, Broken>
        requires sound { failures self.old ≡ 0 }
        ensures unread { IfOk result (λ file. Self.File.failures file ≡ 0) }
        ensures bytes { IfSome (holds self.old name.now) (λ text.
            IfOk result (λ file. Self.File.rest file ≡ Some text)) }
        ensures opened { Opens (opened self.old) (opened self.new) (name.now ∷ []) }
        ensures failures { MatchResult result (λ _. failures self.new ≡ failures self.old)
            (λ _. failures self.new ≡ 1) }
        ensures unclosed { MatchResult result (λ _. unclosed self.new ≤ unclosed self.old + 1)
            (λ _. unclosed self.new ≤ unclosed self.old) }
        ensures others { (lost self.new ≡ lost self.old) × (holds self.new ≡ holds self.old) };

    /// Closes the file `file`. If a read from the file has failed, the value `lost` of the opener becomes 1.
    fn close(&mut self, file: Self::File)
        ensures sound { Self.File.failures file ≡ 0 → lost self.new ≡ lost self.old }
        ensures lost { Self.File.failures file ≡ 1 → lost self.new ≡ 1 }
        ensures unclosed { unclosed self.new ≡ unclosed self.old - 1 }
        ensures others { (opened self.new ≡ opened self.old)
            × (failures self.new ≡ failures self.old)
            × (holds self.new ≡ holds self.old) };
}

/// An opener for the files of the file system. The contracts of this opener state neither which files were opened nor
/// the contents of these files. However, the contracts state whether a file could not be opened, and whether a read
/// from a file failed.
#[derive(Drop)]
pub struct Disk<'a, R> {
    files: &'a R,
    failed: bool,
    lost: bool,
}

impl<'a, R> Model for Disk<'a, R> {
    ghost use Rattle.std.specs.Prelude.{ℕ, if◌then◌else◌};

    ghost Value = { ℕ × ℕ };

    ghost view = { λ disk. (if disk.failed then 1 else 0, if disk.lost then 1 else 0) };
}

impl<'a, R: Files> Disk<'a, R> {
    /// Creates an opener that uses `files` to open files. The new opener has not failed to open a file, and no read
    /// from a file has failed.
    pub fn new(files: &'a R) -> Disk<'a, R>
        ensures { result ≡ (0, 0) }
    {
        Disk {
            files,
            failed: false,
            lost: false,
        }
    }
}

impl<'a, R: Files> Opener for Disk<'a, R> {
    type File = FromRead<R::File>;

    ghost opened = { λ _. None };

    ghost failures = { λ disk. disk.0 };

    ghost lost = { λ disk. disk.1 };

    ghost unclosed = { λ _. 0 };

    ghost holds = { λ _ _. None };

    fn open(&mut self, name: &str) -> Result<FromRead<R::File>, Broken> {
        match fs::open(self.files, name) {
            Ok(file) => Ok(FromRead::new(file)),
            Err(_) => {
                self.failed = true;
                Err(Broken)
            }
        }
    }

    fn close(&mut self, file: FromRead<R::File>) {
        if file.failures() > 0 {
            self.lost = true;
        }
    }
}
