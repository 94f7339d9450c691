//! Files in memory.

ghost use Rattle.std.specs.Prelude.{◌≡◌, ◌+◌, ◌<◌, ◌≤◌, length, take, Some, IfOk, IfSome};
ghost use Rattle.std.specs.List.{position};
ghost use Rattle.io_ends.specs.Causes.{raised};
ghost use Rattle.io_ends.specs.Memory.{contents_at, has_path};

use super::calls::FailingCalls;
use super::held::HeldFile;
use crate::ends::{FileFault, FileRead, Files};
use std::alloc::{AllocError, Global};

/// Where the first file stands that has the path.
fn position_of(files: &[HeldFile], path: &str) -> Option<usize>
    ensures first { result ≡ position (has_path path.now) files.now }
    ensures bound { IfSome result (λ at. at < length files.now) }
{
    files.iter().position(|file| path == file.path.as_str())
}

/// The first bytes of a content, one more than the limit at most.
fn front_of(alloc: Global, content: &[u8], limit: usize) -> Result<Vec<u8>, AllocError>
    ensures { IfOk result (λ bytes. bytes.items ≡ take (limit + 1) content.now) }
{
    if content.len() <= limit {
        Vec::from_slice(alloc, content)
    } else {
        Vec::from_slice(alloc, &content[..limit + 1])
    }
}

/// Files by their paths, each with its contents in order of the reads. It fails only when out
/// of memory.
#[derive(Debug, Drop)]
pub struct SteadyFiles {
    files: Vec<HeldFile>,
    misses: u64,
}

impl SteadyFiles {
    /// The files. Of two with one path the first counts.
    pub fn new(files: Vec<HeldFile>) -> SteadyFiles
        ensures held { ⟦<SteadyFiles as Files>⟧.held result ≡ Some (contents_at files.items) }
        ensures faults { ⟦<SteadyFiles as Files>⟧.faults result ≡ 0 }
        ensures misses { ⟦<SteadyFiles as Files>⟧.misses result ≡ 0 }
    {
        SteadyFiles { files, misses: 0 }
    }

    /// Counts a miss.
    fn miss(&mut self) -> FileRead
        ensures missing { result ≡ FileRead.Missing }
        ensures later { self.old.misses ≤ self.new.misses }
        ensures counted { self.new ≡ record self.old { misses = raised self.old.misses } }
    {
        self.misses = self.misses.saturating_add(1);
        FileRead::Missing
    }
}

impl Files for SteadyFiles {
    ghost held = { λ s. Some (contents_at s.files.items) };

    ghost faults = { λ _. 0 };

    ghost misses = { λ s. s.misses };

    fn read_file(
        &mut self,
        alloc: Global,
        path: &str,
        limit: usize,
    ) -> Result<FileRead, FileFault> {
        let Some(at) = position_of(self.files.as_slice(), path) else {
            return Ok(self.miss());
        };
        let Some(content) = self.files[at].contents.as_slice().first() else {
            return Ok(self.miss());
        };
        let bytes = front_of(alloc, content.as_slice(), limit)?;
        self.files[at].take_content();
        Ok(FileRead::Found(bytes))
    }
}

/// Files by their paths, with a list of the calls that are to fail.
#[derive(Debug, Drop)]
pub struct FilesInMemory {
    files: SteadyFiles,
    calls: FailingCalls,
}

impl FilesInMemory {
    /// The files. The calls with these numbers, counted from 1, fail.
    pub fn new(files: Vec<HeldFile>, fails: Vec<u64>) -> FilesInMemory
        ensures held { ⟦<FilesInMemory as Files>⟧.held result ≡ Some (contents_at files.items) }
        ensures faults { ⟦<FilesInMemory as Files>⟧.faults result ≡ 0 }
        ensures misses { ⟦<FilesInMemory as Files>⟧.misses result ≡ 0 }
    {
        FilesInMemory {
            files: SteadyFiles::new(files),
            calls: FailingCalls::new(fails),
        }
    }
}

impl Files for FilesInMemory {
    ghost held = { λ s. Some (contents_at s.files.files.items) };

    ghost faults = { λ s. s.calls.faults };

    ghost misses = { λ s. s.files.misses };

    fn read_file(
        &mut self,
        alloc: Global,
        path: &str,
        limit: usize,
    ) -> Result<FileRead, FileFault> {
        if self.calls.next_fails() {
            return Err(FileFault::Failed);
        }
        self.files.read_file(alloc, path, limit)
    }
}
