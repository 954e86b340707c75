//! Files for tests: some of their calls fail.

ghost use Rattle.std.specs.Prelude.{◌≡◌};
ghost use Rattle.host.specs.Streams.Stream.{counted};
ghost use Rattle.host.specs.Memory.{is_failing, with_failures};

use crate::{Claimed, Files, Placed, Unread, WriteFailed};
use std::alloc::Global;

/// Which calls of the files fail, and what a write or a replacement leaves then.
#[derive(Clone, Copy, Debug)]
pub struct Failure {
    /// The number of the first that fails; the first call of all is 1.
    pub call: u64,
    /// Whether all after it fail too.
    pub lasting: bool,
    /// Whether a write or a replacement that fails leaves the new file; if not, it leaves the old one.
    pub leaves_new: bool,
}

/// Files that let some calls fail and pass the others on.
#[derive(Drop)]
pub struct FailingFiles<F> {
    files: F,
    failure: Failure,
    calls: u64,
    failures: u64,
    asks: u64,
}

impl<F> FailingFiles<F> {
    /// Of files that were not called yet.
    pub fn new(files: F, failure: Failure) -> FailingFiles<F>
        ensures files { result.files ≡ files }
        ensures failure { result.failure ≡ failure }
        ensures calls { result.calls ≡ 0 }
        ensures failures { result.failures ≡ 0 }
        ensures asks { result.asks ≡ 0 }
    {
        FailingFiles {
            files,
            failure,
            calls: 0,
            failures: 0,
            asks: 0,
        }
    }

    /// The files.
    pub fn into_files(self) -> F
        ensures { result ≡ self.files }
    {
        self.files
    }

    /// Counts a call, and gives whether it fails.
    fn is_failing(&mut self) -> bool
        ensures files { self.new.files ≡ self.old.files }
        ensures failures { self.new.failures ≡ self.old.failures }
        ensures asks { self.new.asks ≡ self.old.asks }
        ensures calls { self.new.calls ≡ counted self.old.calls }
        ensures fails { result ≡ is_failing self.old.failure (counted self.old.calls) }
    {
        self.calls = self.calls.saturating_add(1);
        let Failure { call, lasting, .. } = self.failure;
        self.calls == call || (lasting && self.calls > call)
    }

    /// Counts a failure.
    fn count(&mut self)
        ensures files { self.new.files ≡ self.old.files }
        ensures failures { self.new.failures ≡ counted self.old.failures }
        ensures asks { self.new.asks ≡ self.old.asks }
    {
        self.failures = self.failures.saturating_add(1);
    }

    /// Counts a failure of a call that asks for a lock.
    fn count_ask(&mut self)
        ensures files { self.new.files ≡ self.old.files }
        ensures failures { self.new.failures ≡ counted self.old.failures }
        ensures asks { self.new.asks ≡ counted self.old.asks }
    {
        self.count();
        self.asks = self.asks.saturating_add(1);
    }
}

impl<F: Files> Files for FailingFiles<F> {
    ghost folder = { λ f. with_failures f.failures f.asks (F.folder f.files) };

    fn read(&mut self, alloc: Global, path: &str) -> Result<Vec<u8>, Unread> {
        if self.is_failing() {
            self.count();
            return Err(Unread::File);
        }
        self.files.read(alloc, path)
    }

    fn write(&mut self, path: &str, bytes: &[u8]) -> Result<(), WriteFailed> {
        if !self.is_failing() {
            return self.files.write(path, bytes);
        }
        if self.failure.leaves_new {
            // If this fails, the files count it, so that no call counts as two failures.
            self.files.write(path, bytes)?;
        }
        self.count();
        Err(WriteFailed)
    }

    fn lock(&mut self, alloc: Global, path: &str, is_wanted: bool) -> Result<bool, Unread> {
        if self.is_failing() {
            self.count_ask();
            return Err(Unread::File);
        }
        self.files.lock(alloc, path, is_wanted)
    }

    fn claim(&mut self, alloc: Global, path: &str, is_wanted: bool) -> Result<Claimed, Unread> {
        if self.is_failing() {
            self.count_ask();
            return Err(Unread::File);
        }
        self.files.claim(alloc, path, is_wanted)
    }

    fn write_beside(&mut self, path: &str, bytes: &[u8]) -> Result<(), WriteFailed> {
        if self.is_failing() {
            self.count();
            return Err(WriteFailed);
        }
        self.files.write_beside(path, bytes)
    }

    fn sync(&mut self) -> Result<(), WriteFailed> {
        if self.is_failing() {
            self.count();
            return Err(WriteFailed);
        }
        self.files.sync()
    }

    fn put_in_place(&mut self, keep: bool) -> Result<Placed, WriteFailed> {
        if !self.is_failing() {
            return self.files.put_in_place(keep);
        }
        if self.failure.leaves_new {
            // As in a write: if this fails, the files count it. A file that is to be kept stays.
            self.files.put_in_place(keep)?;
        }
        self.count();
        Err(WriteFailed)
    }
}
