ghost use Rattle.std.specs.Prelude.{◌≡◌, ◌≤◌, ◌⊎◌, ◌++◌, ◌∷◌, take, [], IfOk, OnOk, OnErr, Err, Some, None, Contains};
ghost use Rattle.std.specs.Option.{option_copied};
ghost use Rattle.wy_text.specs.Outside.{gained, next_count, Rose};
ghost use Rattle.wy_text.specs.Shelf.{GivesFile, read_well, read_badly, file_named};
ghost use Rattle.wy_memory.specs.MemShelf.{faults_after};

use std::alloc::Global;
use std::marker::Model;
use wy_text::list::{CallList, Items};
use wy_text::shelf::{FileList, NamedText, ReadDone, ReadError, Shelf};
use wy_text::text::{Memory, Text, from_bytes};

/// A shelf in memory. It fails where the name is not there, and at the calls that it was told to fail.
/// Of two files with one name it gives the first.
#[derive(Drop)]
pub struct MemShelf {
    alloc: Global,
    files: FileList,
    fails: CallList,
    calls: u64,
    reads: Items<ReadDone>,
    faults: u64,
}

impl Model for MemShelf {
    ghost use Rattle.wy_memory.specs.MemShelf.{MemShelfState};

    ghost Value = { MemShelfState };

    ghost view = { λ s. record { files = s.files; fails = s.fails; calls = s.calls; reads = s.reads; faults = s.faults } };
}

impl MemShelf {
    /// A shelf of these files that was not read and has no faults. Its calls are counted from 1.
    pub fn new(alloc: Global, files: FileList, fails: CallList) -> Result<MemShelf, Memory>
        ensures { IfOk result (λ s. s ≡ record { files = files; fails = fails; calls = 0; reads = []; faults = 0 }) }
    {
        Ok(MemShelf {
            alloc,
            files,
            fails,
            calls: 0,
            reads: Items::new(alloc),
            faults: 0,
        })
    }

    /// Notes a read.
    fn note(&mut self, name: &str, failed: bool) -> Result<(), Memory>
        ensures ok { OnOk result (self.new ≡ record self.old { reads = self.old.reads ++ record { name = name.now; failed = failed } ∷ [] }) }
        ensures err { OnErr result (self.new ≡ self.old) }
    {
        let asked = from_bytes(self.alloc, name.as_bytes())?;
        self.reads.push(ReadDone {
            name: asked,
            failed,
        })
    }

    /// Notes a read that failed and counts a fault, and gives why there are no bytes: memory may be wanting for the note.
    fn fail(&mut self, name: &str) -> ReadError
        ensures failed { result ≡ ReadError.Failed → self.new ≡ record self.old {
          reads = self.old.reads ++ read_badly name.now;
          faults = next_count self.old.faults;
        } }
        ensures none { result ≡ ReadError.Memory → self.new ≡ self.old }
        ensures counted { self.old.faults ≤ self.new.faults }
    {
        match self.note(name, true) {
            Ok(()) => {
                self.faults = self.faults.saturating_add(1);
                ReadError::Failed
            }
            Err(_) => ReadError::Memory,
        }
    }

    /// Reads at the call that was counted last.
    fn give(&mut self, name: &str, most: usize) -> Result<Vec<u8>, ReadError>
        ensures gives { IfOk result (λ v. GivesFile (Some self.old.files) name.now most v.items) }
        ensures ok { IfOk result (λ _. self.new ≡ record self.old { reads = self.old.reads ++ read_well name.now }) }
        ensures served { IfOk result (λ _. ¬ Contains self.old.fails self.old.calls) }
        ensures bad { result ≡ Err ReadError.Failed → self.new ≡ record self.old {
          reads = self.old.reads ++ read_badly name.now;
          faults = next_count self.old.faults;
        } }
        ensures listed { result ≡ Err ReadError.Failed → Contains self.old.fails self.old.calls ⊎ (file_named name.now self.old.files ≡ None) }
        ensures none { result ≡ Err ReadError.Memory → self.new ≡ self.old }
        ensures counted { self.old.faults ≤ self.new.faults }
    {
        if !self.fails.contains(self.calls)
            && let Some(text) = text_named(self.files.as_slice(), name.as_bytes())
        {
            let given = first_bytes(self.alloc, text, most)?;
            self.note(name, false)?;
            Ok(given)
        } else {
            Err(self.fail(name))
        }
    }
}

fn text_named<'a>(files: &'a [NamedText], name: &[u8]) -> Option<&'a Text>
    ensures { option_copied result ≡ file_named name.now files.now }
{
    files
        .iter()
        .find(|file| file.name.as_bytes() == name)
        .map(|file| &file.text)
}

fn first_bytes(alloc: Global, text: &Text, most: usize) -> Result<Vec<u8>, Memory>
    ensures { IfOk result (λ v. v.items ≡ take most text.now) }
{
    let bytes = text.as_bytes();
    let given = Vec::from_slice(alloc, &bytes[..most.min(bytes.len())])?;
    Ok(given)
}

impl Shelf for MemShelf {
    ghost state = { λ s. record { files = Some s.files; reads = Some s.reads; faults = s.faults } };

    fn read(&mut self, name: &str, most: usize) -> Result<Vec<u8>, ReadError>
        ensures files { Some self.new.files ≡ Some self.old.files }
        ensures gives { IfOk result (λ v. GivesFile (Some self.old.files) name.now most v.items) }
        ensures ok { IfOk result (λ _. Some self.new.reads ≡ gained (Some self.old.reads) (read_well name.now)) }
        ensures bad { result ≡ Err ReadError.Failed → Some self.new.reads ≡ gained (Some self.old.reads) (read_badly name.now) }
        ensures none { result ≡ Err ReadError.Memory → Some self.new.reads ≡ Some self.old.reads }
        ensures counted { self.old.faults ≤ self.new.faults }
        ensures failed { result ≡ Err ReadError.Failed → Rose self.old.faults self.new.faults }

        // It fails exactly at the calls that it was told and where the name is not there, and counts a fault exactly where it fails.
        ensures call { self.new.calls ≡ next_count self.old.calls }
        ensures listed { result ≡ Err ReadError.Failed → Contains self.old.fails (next_count self.old.calls) ⊎ (file_named name.now self.old.files ≡ None) }
        ensures served { IfOk result (λ _. ¬ Contains self.old.fails (next_count self.old.calls)) }
        ensures same_list { self.new.fails ≡ self.old.fails }
        ensures faults { self.new.faults ≡ faults_after result self.old.faults }
    {
        self.calls = self.calls.saturating_add(1);
        self.give(name, most)
    }
}
