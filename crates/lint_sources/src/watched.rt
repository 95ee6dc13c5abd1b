//! Files of which something is kept of each one that is read.

ghost use Rattle.std.specs.Prelude.{◌≡◌, ℕ, List as Items, Option as Maybe};

use crate::loading::{SYSTEM_PATH, VENDOR_PATH};
use crate::quotes::spanned_lines;
use collections::TextIndex;
use init_base::{Files, Found, List, NoMemory, Text};
use std::alloc::Global;

const BYTE_ORDER_MARK: &[u8] = b"\xef\xbb\xbf";

/// What is kept of a file that was read.
#[derive(Debug, Drop)]
pub struct Seen {
    pub path: Text,
    /// The text of a build file.
    pub text: Option<Text>,
    pub begins_with_mark: bool,
    /// The lines of an rc file on which quotes begin that go over the end of a line, in order.
    pub spanned_lines: Vec<u32>,
}

impl Seen {
    fn of(
        alloc: Global,
        path: &[u8],
        text: &Text,
        looks_at_quotes: bool,
    ) -> Result<Seen, NoMemory> {
        let bytes = text.bytes();
        let begins_with_mark = bytes.starts_with(BYTE_ORDER_MARK);
        let path = Text::of(alloc, path)?;
        Ok(if path.is(SYSTEM_PATH) || path.is(VENDOR_PATH) {
            Seen {
                path,
                text: Some(text.share()?),
                begins_with_mark,
                spanned_lines: Vec::new(alloc),
            }
        } else {
            Seen {
                path,
                text: None,
                begins_with_mark,
                spanned_lines: if looks_at_quotes {
                    spanned_lines(alloc, bytes)?
                } else {
                    Vec::new(alloc)
                },
            }
        })
    }
}

/// The files that were read, each once and in order.
#[derive(Drop)]
pub struct SeenFiles {
    /// Whether quotes are looked at.
    looks_at_quotes: bool,
    pub files: List<Seen>,
    /// Their paths, in the same order.
    paths: TextIndex,
}

impl SeenFiles {
    pub fn new(alloc: Global, looks_at_quotes: bool) -> SeenFiles {
        SeenFiles {
            looks_at_quotes,
            files: List::new(alloc),
            paths: TextIndex::new(alloc),
        }
    }

    /// The place of the file with this path.
    pub fn place(&self, path: &[u8]) -> Option<usize> {
        self.paths.place(path)
    }

    /// Keeps what is told of a text that was read.
    fn keep(&mut self, alloc: Global, path: &[u8], text: &Text) -> Result<(), NoMemory> {
        if self.paths.add(path)? < self.files.len() {
            return Ok(());
        }
        let seen = Seen::of(alloc, path, text, self.looks_at_quotes)?;
        self.files.push(seen)
    }
}

/// Files, and each file of them that was read.
#[derive(Drop)]
pub struct Watched<F: Files> {
    pub files: F,
    pub seen: SeenFiles,
}

impl<F: Files> Watched<F> {
    /// These files, of which none was read. What only a hint tells of is looked at where hints are wanted.
    pub fn new(alloc: Global, files: F, hints: bool) -> Watched<F>
        ensures { result.files ≡ files }
    {
        Watched {
            files,
            seen: SeenFiles::new(alloc, hints),
        }
    }
}

impl<F: Files> Files for Watched<F> {
    ghost tree = { λ w. F.tree w.files };

    ghost fault_count = { λ w. F.fault_count w.files };

    fn faults(&self) -> u64 {
        self.files.faults()
    }

    fn list(&mut self, alloc: Global, dir: &[u8]) -> Found<List<Text>> {
        self.files.list(alloc, dir)
    }

    fn read(&mut self, alloc: Global, path: &[u8], limit: usize) -> Found<Text> {
        let found = self.files.read(alloc, path, limit)?;
        if let Some(text) = &found {
            self.seen.keep(alloc, path, text)?;
        }
        Ok(found)
    }
}
