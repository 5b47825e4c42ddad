//! Whole commands over input, output and folders in memory.

use crate::ends::Ends;
use crate::folders::Folder;
use crate::notices::Lines;
use crate::texts::{bytes_text, output_text, spelled};
use crate::watchers::prefixes_of;
use crate::weights::{run_first_twice, run_once};
use crate::words::words_of;
use folder_store::MemStore;
use oc_bytes::{MemSink, MemSource};
use path_tree::Path;
use shell_commands::Status;
use std::alloc::{AllocError, Global};
use test_rows::{Row, RowFault, hex_text};

/// The ends of the next command, and what the last one wrote and how it ended.
#[derive(Drop)]
pub(crate) struct Commands {
    input: Vec<u8>,
    /// How many bytes one read gives at most, at least 1.
    read_piece: usize,
    /// How many bytes one write takes at most, at least 1.
    written_piece: usize,
    folder: Folder,
    /// What the commands wrote into it stays there.
    store: MemStore,
    /// What the watchers want: these paths, and what is below them.
    prefixes: Vec<Path>,
    output: Vec<u8>,
    /// The lines of the last command's notices.
    notices: String,
    status: Status,
}

impl Commands {
    pub(crate) fn new(alloc: Global) -> Commands {
        Commands {
            input: Vec::new(alloc),
            read_piece: 100,
            written_piece: 100,
            folder: Folder::Nothing,
            store: MemStore::new(alloc, Vec::new(alloc)),
            prefixes: Vec::new(alloc),
            output: Vec::new(alloc),
            notices: String::new(alloc),
            status: Status::Done,
        }
    }

    /// What a row that sets an end, runs a command or asks for its status answers.
    pub(crate) fn call(&mut self, alloc: Global, row: &Row<'_>) -> Result<String, RowFault> {
        match row.name() {
            "run" => self.run(alloc, row, false),
            "run-first-twice" => self.run(alloc, row, true),
            "written" => self.written(alloc, row),
            "same" => self.same(alloc),
            "notices" => Ok(output_text(alloc, self.notices.as_bytes())?),
            "stored" => self.stored(alloc, row),
            "line" => self.line(alloc),
            _ => self.set(alloc, row),
        }
    }

    /// What a row that sets an end or a status answers.
    fn set(&mut self, alloc: Global, row: &Row<'_>) -> Result<String, RowFault> {
        match row.name() {
            "pieces" => self.set_pieces(alloc, row),
            "folder" => self.set_folder(alloc, row),
            "watchers" => self.set_watchers(alloc, row),
            "input" => self.set_input(alloc, row.octets(0)),
            "script" => self.set_input(alloc, spelled(alloc, row).into_bytes()),
            "take" => self.take(alloc),
            "status" => self.set_status(alloc, row),
            _ => Err(RowFault::BadRow),
        }
    }

    /// `pieces READ WRITTEN`: how many bytes one read gives and one write takes at most.
    fn set_pieces(&mut self, alloc: Global, row: &Row<'_>) -> Result<String, RowFault> {
        self.read_piece = row.count(0);
        self.written_piece = row.count(1);
        Ok(String::from_str(alloc, "set")?)
    }

    /// `folder -`, `folder F/`, `folder F/a BYTES` and `folder F/a/ F/b BYTES`: what stands in the folders.
    fn set_folder(&mut self, alloc: Global, row: &Row<'_>) -> Result<String, RowFault> {
        self.folder = Folder::of_row(alloc, row)?;
        Ok(String::from_str(alloc, "set")?)
    }

    /// `watchers PATH..`: a watcher for each of these prefixes, or none.
    fn set_watchers(&mut self, alloc: Global, row: &Row<'_>) -> Result<String, RowFault> {
        self.prefixes = prefixes_of(alloc, row)?;
        Ok(String::from_str(alloc, "set")?)
    }

    /// `input BYTES` and `script TEXT`: what the commands read. It answers how many bytes that are.
    fn set_input(&mut self, alloc: Global, input: Vec<u8>) -> Result<String, RowFault> {
        self.input = input;
        Ok(bytes_text(alloc, &self.input)?)
    }

    /// `take`: the commands read what the last one wrote.
    fn take(&mut self, alloc: Global) -> Result<String, RowFault> {
        let output = Vec::from_slice(alloc, &self.output)?;
        self.set_input(alloc, output)
    }

    /// `run WORD..` and `run-first-twice WORD..`: the exit status of a command and what it wrote. Each module is sent once a cycle, or
    /// module 1 twice.
    fn run(
        &mut self,
        alloc: Global,
        row: &Row<'_>,
        is_first_twice: bool,
    ) -> Result<String, RowFault> {
        let words = words_of(alloc, row);
        let mut ends = self.ends(alloc)?;
        self.status = if is_first_twice {
            run_first_twice(alloc, &words, &self.prefixes, &mut ends, &mut self.store)?
        } else {
            run_once(alloc, &words, &self.prefixes, &mut ends, &mut self.store)?
        };
        self.output = Vec::from_slice(alloc, ends.sink.written())?;
        self.notices = ends.notices.into_text();
        Ok(self.outcome(alloc)?)
    }

    /// The ends as the rows have set them.
    fn ends(&self, alloc: Global) -> Result<Ends, AllocError> {
        let input = Vec::from_slice(alloc, &self.input)?;
        Ok(Ends {
            source: MemSource::new(input, Vec::new(alloc), self.read_piece.max(1)),
            sink: MemSink::new(alloc, Vec::new(alloc), self.written_piece.max(1)),
            folders: self.folder.made(alloc)?,
            notices: Lines::new(alloc),
        })
    }

    /// The exit status of the last command and what it wrote.
    fn outcome(&self, alloc: Global) -> Result<String, AllocError> {
        let code = self.status.code();
        let output = output_text(alloc, &self.output)?;
        format!(in alloc; "{code} {output}")
    }

    /// `same`: whether the last command wrote what the commands read.
    fn same(&self, alloc: Global) -> Result<String, RowFault> {
        let text = if self.output.as_slice() == self.input.as_slice() {
            "the same"
        } else {
            "others"
        };
        Ok(String::from_str(alloc, text)?)
    }

    /// `written BYTES`: whether the last command wrote these bytes, and which it did where it wrote others.
    fn written(&self, alloc: Global, row: &Row<'_>) -> Result<String, RowFault> {
        let wanted = row.bytes(alloc, 0)?;
        if wanted.as_slice() == self.output.as_slice() {
            return Ok(String::from_str(alloc, "the same")?);
        }
        let hex = hex_text(alloc, &self.output)?;
        Ok(format!(in alloc; "others: {hex}")?)
    }

    /// `stored PATH`: what stands at a path of the store: a folder, a file of these bytes, or nothing.
    fn stored(&self, alloc: Global, row: &Row<'_>) -> Result<String, RowFault> {
        let path = row.word(0)?;
        if self.store.is_folder(path) {
            return Ok(String::from_str(alloc, "folder")?);
        }
        match self.store.content(path) {
            Some(content) => Ok(output_text(alloc, content)?),
            None => Ok(String::from_str(alloc, "nothing")?),
        }
    }

    /// `line`: the line for standard error, or `-` for none.
    fn line(&self, alloc: Global) -> Result<String, RowFault> {
        match self.status.line(alloc)? {
            Some(line) => Ok(line),
            None => Ok(String::from_str(alloc, "-")?),
        }
    }

    /// `status done` and `status incomplete BLOCK`: the last command ended so.
    fn set_status(&mut self, alloc: Global, row: &Row<'_>) -> Result<String, RowFault> {
        self.status = match row.text(0) {
            "done" => Status::Done,
            "incomplete" => Status::Incomplete(row.long(1)),
            _ => return Err(RowFault::BadRow),
        };
        let code = self.status.code();
        Ok(format!(in alloc; "{code}")?)
    }
}
