//! The files of a folder in memory.

ghost use Rattle.std.specs.Prelude.{◌≡◌, ◌<◌, IfOk, OnOk, bytes_eq, map, position, vec_len, vec_capacity};
ghost use Rattle.std.specs.Option.{option_copied};
ghost use Rattle.wy_device.specs.Requests.{in_lines};
ghost use Rattle.wy_memory.specs.FolderFiles.{is_file, text_in, Puts, Removes, AreNames, Lists};

use std::alloc::Global;
use std::collections::BTreeSet;
use wy_text::list::Items;
use wy_text::text::{Memory, Text, from_vec};

/// A file of a folder in memory: the grant whose folder it is in, its name and its text.
#[derive(Drop)]
pub struct FolderFile {
    pub grant: Text,
    pub name: Text,
    pub text: Text,
}

/// The files of a folder in memory.
pub type FolderList = Items<FolderFile>;

impl FolderFile {
    /// A file of the same grant, name and text.
    pub fn copy(&self) -> Result<FolderFile, Memory>
        ensures { IfOk result (λ file. file ≡ self.now) }
    {
        Ok(FolderFile {
            grant: self.grant.copy()?,
            name: self.name.copy()?,
            text: self.text.copy()?,
        })
    }

    /// Whether the file is in this grant's folder. It takes no memory.
    pub fn is_in(&self, grant: &Text) -> bool
        ensures { result ≡ bytes_eq self.now.grant grant.now }
    {
        self.grant.as_bytes() == grant.as_bytes()
    }

    /// Whether it is the file of this name in this grant's folder. It takes no memory.
    pub fn is_at(&self, grant: &Text, name: &Text) -> bool
        ensures { result ≡ is_file grant.now name.now self.now }
    {
        self.is_in(grant) && self.name.as_bytes() == name.as_bytes()
    }
}

/// Makes room for one more file, and gives that of a grant and a name with this text.
pub fn file_with_room(
    files: &mut Vec<FolderFile>,
    grant: &Text,
    name: &Text,
    text: Text,
) -> Result<FolderFile, Memory>
    ensures file { IfOk result (λ file. (file.grant ≡ grant.now) × (file.name ≡ name.now) × (file.text ≡ text)) }
    ensures room { OnOk result (vec_len files.new < vec_capacity files.new) }
    ensures same { files.new.items ≡ files.old.items }
{
    files.reserve(1)?;
    Ok(FolderFile {
        grant: grant.copy()?,
        name: name.copy()?,
        text,
    })
}

/// The same files, in their order.
pub fn copied(alloc: Global, files: &[FolderFile]) -> Result<Vec<FolderFile>, Memory>
    ensures { IfOk result (λ v. v.items ≡ files.now) }
{
    let mut copies = Vec::new(alloc);
    for file in files {
        copies.push(file.copy()?)?;
    }
    Ok(copies)
}

/// The text of a name in a grant's folder, where it is there.
pub fn text_of<'a>(files: &'a [FolderFile], grant: &Text, name: &Text) -> Option<&'a Text>
    ensures { option_copied result ≡ text_in files.now grant.now name.now }
{
    files
        .iter()
        .find(|file| file.is_at(grant, name))
        .map(|file| &file.text)
}

fn place_of(files: &[FolderFile], grant: &Text, name: &Text) -> Option<usize>
    ensures { result ≡ position (is_file grant.now name.now) files.now }
{
    files.iter().position(|file| file.is_at(grant, name))
}

/// Puts a file in the place of the one with its grant and name, or else at the end, for which there is room.
pub fn put(files: &mut Vec<FolderFile>, file: FolderFile)
    requires { vec_len files.old < vec_capacity files.old }
    ensures { Puts files.old.items file.grant file.name file.text files.new.items }
{
    match place_of(files.as_slice(), &file.grant, &file.name) {
        Some(at) => files[at] = file,
        None => {
            let Ok(()) = files.push(file) else {
                unreachable!()
            };
        }
    }
}

/// Takes away each file of this name in this grant's folder.
pub fn remove(files: &mut Vec<FolderFile>, grant: &Text, name: &Text)
    ensures { Removes files.old.items grant.now name.now files.new.items }
{
    files.retain(|file| !file.is_at(grant, name));
}

fn names_in<'a>(
    alloc: Global,
    files: &'a [FolderFile],
    grant: &Text,
) -> Result<BTreeSet<&'a [u8]>, Memory>
    ensures { IfOk result (λ s. AreNames files.now grant.now (map (λ name. name.now) s.keys)) }
{
    let mut names = BTreeSet::new(alloc);
    for file in files {
        if file.is_in(grant) {
            names.insert(file.name.as_bytes())?;
        }
    }
    Ok(names)
}

fn lines_of(alloc: Global, names: &BTreeSet<&[u8]>) -> Result<Text, Memory>
    ensures { IfOk result (λ text. text ≡ in_lines (map (λ name. name.now) names.now.keys)) }
{
    let mut lines = Vec::new(alloc);
    for name in names {
        lines.extend_from_slice(name)?;
        lines.push(b'\n')?;
    }
    Ok(from_vec(lines))
}

/// The names in a grant's folder, each once, in byte order and followed by a newline.
pub fn listing(alloc: Global, files: &[FolderFile], grant: &Text) -> Result<Text, Memory>
    ensures { IfOk result (λ text. Lists files.now grant.now text) }
{
    let names = names_in(alloc, files, grant)?;
    lines_of(alloc, &names)
}
