ghost use Rattle.std.specs.Prelude.{◌≡◌, ◌≤◌, ◌++◌, ◌∷◌, List, ℕ, Ok, IfOk, OnOk, IfSome, OnSome, IsTrue, Contains, true, length, string_bytes};
ghost use Rattle.std.specs.Option.{option_map};
ghost use Rattle.std.specs.Result.{result_err};
ghost use Rattle.wy_device.specs.Device.{IsBytesUpTo, IsTruth};
ghost use Rattle.wy_device.specs.DeviceState.{DeviceState};
ghost use Rattle.wy_device.specs.Requests as requests;
ghost use Rattle.wy_device.specs.Traps.{text_limit};
ghost use Rattle.wy_host.specs.Failures.{CountsFailure};
ghost use Rattle.wy_host.specs.FolderNames.{HoldsFileNames, ListsFileNames};
ghost use Rattle.wy_host.specs.FolderPaths.{IsFileOf, IsFolderOf};
ghost use Rattle.wy_host.specs.FolderPaths as paths;

use crate::fault::count_fault;
use crate::grant_folder::{GrantFolder, given_path};
use crate::listing::listing;
use crate::plain_file::{
    append_file, file_names, is_folder, is_plain_file, leads_to_folder, read_file, remove_file,
};
use crate::replacing::{begin, replace};
use std::alloc::Global;
use std::collections::BTreeSet;
use std::io::{self, ErrorKind};
use std::os::fd::AsFd;
use std::rt::Files;
use std::str;
use wy_device::deed::DeedList;
use wy_device::device::{Device, DeviceError};
use wy_device::file_name::is_file_name;
use wy_device::operation::{Answer, Kind, LONGEST_TEXT, Op};
use wy_text::text::{Memory, Text, from_vec};

/// The folders of the machine. A grant's is the one that is given for it, or else the one of its name in the base. It
/// tells no deeds.
///
/// `has` is true of plain files alone, a name that nothing goes by is read as the empty text, and removing it does
/// nothing. An operation fails where the grant's folder is not there, where the one in the base is a symbolic link,
/// where a name is no file's, where something else than a plain file is read, written or removed, where a text is
/// longer than an answer may be, and where the machine refuses. A write that failed left the old text as it was. An
/// append that failed may have done a part of its work.
/// (docs/LANGUAGE.md, "Primitive types")
#[derive(Drop)]
pub struct RealFolder<R> {
    alloc: Global,
    rt: R,
    base: String,
    folders: Vec<GrantFolder>,
    faults: u64,
}

/// Whether bytes can be the name of a grant's folder, as each name of the language can: a path with it leads
/// one folder down.
fn leads_down(name: &[u8]) -> bool
    ensures { IsTrue result → ¬ Contains name.now 46 × (¬ Contains name.now 47) }
{
    !name.is_empty() && !name.contains(&b'.') && !name.contains(&b'/')
}

/// The name of a grant's folder as a path has it, where it can be one's.
fn folder_name(grant: &Text) -> Option<&str>
    ensures { IfSome result (λ name. name.now ≡ grant.now) }
{
    if leads_down(grant.as_bytes()) {
        str::from_utf8(grant.as_bytes()).ok()
    } else {
        None
    }
}

/// The name of a file as a path has it, where it is a file's.
fn file_name(name: &Text) -> Option<&str>
    ensures same { IfSome result (λ file. file.now ≡ name.now) }
    ensures named { OnSome result (requests.is_file_name name.now ≡ true) }
{
    if is_file_name(name.as_bytes()) {
        str::from_utf8(name.as_bytes()).ok()
    } else {
        None
    }
}

/// The path of what goes by this name in a folder.
fn path_in(alloc: Global, folder: &str, name: &str) -> Result<String, Memory>
    ensures { IfOk result (λ path. string_bytes path ≡ folder.now ++ 47 ∷ name.now) }
{
    Ok(format!(in alloc; "{folder}/{name}")?)
}

impl<R: Files + AllocGlobal + Clone + Drop> RealFolder<R>
where
    R::File: AsFd,
{
    /// Returns folders with no faults yet. `folders` gives the folders of some grants. Those of the others are in
    /// `base`, each by the name of its grant. It takes no memory.
    pub fn new(alloc: Global, rt: R, base: String, folders: Vec<GrantFolder>) -> RealFolder<R> {
        RealFolder {
            alloc,
            rt,
            base,
            folders,
            faults: 0,
        }
    }

    /// What a look or a read gave. It changed nothing on the machine, so want of memory is no fault.
    fn told<T: Drop>(&mut self, outcome: io::Result<T>) -> Result<T, DeviceError>
        ensures same { IfOk result (λ value. outcome ≡ Ok value) }
        ensures counted { CountsFailure self.old.faults self.new.faults (result_err result) }
    {
        match outcome {
            Ok(value) => Ok(value),
            Err(error) if error.kind() == ErrorKind::OutOfMemory => Err(DeviceError::Memory),
            Err(_) => Err(count_fault(&mut self.faults)),
        }
    }

    /// What a write or a removal gave. It may have changed something, so each error is a fault.
    fn done(&mut self, outcome: io::Result<()>) -> Result<Answer, DeviceError>
        ensures unit { IfOk result (λ a. a ≡ Answer.Unit) }
        ensures counted { CountsFailure self.old.faults self.new.faults (result_err result) }
    {
        match outcome {
            Ok(()) => Ok(Answer::Unit),
            Err(_) => Err(count_fault(&mut self.faults)),
        }
    }

    /// The answer of these bytes, of which there are no more than it may have.
    fn answer(&mut self, bytes: Vec<u8>) -> Result<Answer, DeviceError>
        ensures text { IfOk result (λ a. a ≡ Answer.Bytes bytes.items) }
        ensures short { IfOk result (λ _. length bytes.items ≤ text_limit) }
        ensures counted { CountsFailure self.old.faults self.new.faults (result_err result) }
    {
        if bytes.len() > LONGEST_TEXT {
            return Err(count_fault(&mut self.faults));
        }
        Ok(Answer::Bytes(from_vec(bytes)))
    }

    /// A copy of the path that is given for a grant's folder; `None` where none is.
    fn given_path(&self, grant: &Text) -> Result<Option<String>, Memory>
        ensures { IfOk result (λ p. option_map string_bytes p ≡ paths.given_path self.now.folders.items grant.now) }
    {
        match given_path(self.folders.as_slice(), grant) {
            Some(path) => Ok(Some(String::from_str(self.alloc, path)?)),
            None => Ok(None),
        }
    }

    /// The path of a folder, if a look saw one there.
    fn found(&mut self, path: String, there: io::Result<bool>) -> Result<String, DeviceError>
        ensures same { IfOk result (λ found. found ≡ path) }
        ensures counted { CountsFailure self.old.faults self.new.faults (result_err result) }
    {
        if self.told(there)? {
            Ok(path)
        } else {
            Err(count_fault(&mut self.faults))
        }
    }

    /// The path of a grant's folder, which is there. Only a path that is given may be a link.
    fn folder_path(&mut self, grant: &Text) -> Result<String, DeviceError>
        ensures path { IfOk result (IsFolderOf self.old.folders.items self.old.base grant.now) }
        ensures counted { CountsFailure self.old.faults self.new.faults (result_err result) }
    {
        match self.given_path(grant)? {
            Some(path) => {
                let there = leads_to_folder(&self.rt, path.as_str());
                self.found(path, there)
            }
            None => self.path_in_base(grant),
        }
    }

    /// The path of the folder of a grant's name in the base, which is there and is no link. Between this look and what
    /// follows the machine may change: whoever may write in the base can put a link there.
    fn path_in_base(&mut self, grant: &Text) -> Result<String, DeviceError>
        ensures path { IfOk result (λ path. string_bytes path ≡ string_bytes self.old.base ++ 47 ∷ grant.now) }
        ensures counted { CountsFailure self.old.faults self.new.faults (result_err result) }
    {
        let Some(name) = folder_name(grant) else {
            return Err(count_fault(&mut self.faults));
        };
        let path = path_in(self.alloc, self.base.as_str(), name)?;
        let there = is_folder(&self.rt, path.as_str());
        self.found(path, there)
    }

    /// The path of a file in a grant's folder. The name is a file's: no other leads to a path.
    fn file_path(&mut self, grant: &Text, name: &Text) -> Result<String, DeviceError>
        ensures path { IfOk result (IsFileOf self.old.folders.items self.old.base grant.now name.now) }
        ensures named { OnOk result (requests.is_file_name name.now ≡ true) }
        ensures counted { CountsFailure self.old.faults self.new.faults (result_err result) }
    {
        match file_name(name) {
            Some(file) => self.path_in_folder(grant, file),
            None => Err(count_fault(&mut self.faults)),
        }
    }

    /// The path of what goes by a name in a grant's folder.
    fn path_in_folder(&mut self, grant: &Text, name: &str) -> Result<String, DeviceError>
        ensures path { IfOk result (IsFileOf self.old.folders.items self.old.base grant.now name.now) }
        ensures counted { CountsFailure self.old.faults self.new.faults (result_err result) }
    {
        let folder = self.folder_path(grant)?;
        Ok(path_in(self.alloc, folder.as_str(), name)?)
    }

    /// The bytes of a file, at most one more than an answer may have.
    fn bytes_of(&mut self, grant: &Text, name: &Text) -> Result<Vec<u8>, DeviceError>
        ensures counted { CountsFailure self.old.faults self.new.faults (result_err result) }
    {
        let path = self.file_path(grant, name)?;
        let bytes = read_file(&self.rt, self.alloc, path.as_str(), LONGEST_TEXT as u64 + 1);
        self.told(bytes)
    }

    fn read(&mut self, grant: &Text, name: &Text) -> Result<Answer, DeviceError>
        ensures short { IfOk result (IsBytesUpTo text_limit) }
        ensures counted { CountsFailure self.old.faults self.new.faults (result_err result) }
    {
        let bytes = self.bytes_of(grant, name)?;
        self.answer(bytes)
    }

    fn has(&mut self, grant: &Text, name: &Text) -> Result<Answer, DeviceError>
        ensures truth { IfOk result IsTruth }
        ensures counted { CountsFailure self.old.faults self.new.faults (result_err result) }
    {
        let path = self.file_path(grant, name)?;
        let there = is_plain_file(&self.rt, path.as_str());
        Ok(Answer::Truth(self.told(there)?))
    }

    /// Until the second file is there, nothing was changed, so want of memory is no fault.
    fn write(&mut self, grant: &Text, name: &Text, text: &Text) -> Result<Answer, DeviceError>
        ensures unit { IfOk result (λ a. a ≡ Answer.Unit) }
        ensures counted { CountsFailure self.old.faults self.new.faults (result_err result) }
    {
        let path = self.file_path(grant, name)?;
        let folder = self.folder_path(grant)?;
        let begun = begin(&self.rt, self.alloc, folder.as_str(), path.as_str());
        let draft = self.told(begun)?;
        let replaced = replace(&self.rt, draft, path.as_str(), text.as_bytes());
        self.done(replaced)
    }

    fn append(&mut self, grant: &Text, name: &Text, text: &Text) -> Result<Answer, DeviceError>
        ensures unit { IfOk result (λ a. a ≡ Answer.Unit) }
        ensures counted { CountsFailure self.old.faults self.new.faults (result_err result) }
    {
        let path = self.file_path(grant, name)?;
        let written = append_file(&self.rt, path.as_str(), text.as_bytes());
        self.done(written)
    }

    fn remove(&mut self, grant: &Text, name: &Text) -> Result<Answer, DeviceError>
        ensures unit { IfOk result (λ a. a ≡ Answer.Unit) }
        ensures counted { CountsFailure self.old.faults self.new.faults (result_err result) }
    {
        let path = self.file_path(grant, name)?;
        let removed = remove_file(&self.rt, path.as_str());
        self.done(removed)
    }

    /// The names of the files in a grant's folder.
    fn names_in(&mut self, grant: &Text) -> Result<BTreeSet<String>, DeviceError>
        ensures held { IfOk result HoldsFileNames }
        ensures counted { CountsFailure self.old.faults self.new.faults (result_err result) }
    {
        let path = self.folder_path(grant)?;
        let names = file_names(&self.rt, path.as_str());
        self.told(names)
    }

    fn names(&mut self, grant: &Text) -> Result<Answer, DeviceError>
        ensures listed { IfOk result (λ a. (text : List ℕ) × (a ≡ Answer.Bytes text) × ListsFileNames text) }
        ensures short { IfOk result (IsBytesUpTo text_limit) }
        ensures counted { CountsFailure self.old.faults self.new.faults (result_err result) }
    {
        let names = self.names_in(grant)?;
        let lines = listing(self.alloc, &names)?;
        self.answer(lines)
    }
}

impl<R: Files + AllocGlobal + Clone + Drop> Device for RealFolder<R>
where
    R::File: AsFd,
{
    ghost use Rattle.wy_device.specs.Device.{untold};
    ghost use Rattle.wy_device.specs.declared.operation.Kind.TheVariants.{Folder};

    ghost state = { λ f. record { kind = Folder; deeds = untold; faults = f.faults } };

    fn kind(&self) -> Kind {
        Kind::Folder
    }

    fn deeds(&self) -> Option<&DeedList> {
        None
    }

    fn perform(&mut self, grant: &Text, op: &Op) -> Result<Answer, DeviceError> {
        match op {
            Op::FolderRead(name) => self.read(grant, name),
            Op::FolderHas(name) => self.has(grant, name),
            Op::FolderWrite(name, text) => self.write(grant, name, text),
            Op::FolderAppend(name, text) => self.append(grant, name, text),
            Op::FolderNames => self.names(grant),
            Op::FolderRemove(name) => self.remove(grant, name),
            _ => unreachable!(),
        }
    }
}
