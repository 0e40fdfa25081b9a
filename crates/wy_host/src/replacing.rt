//! Replaces the text of a file as a whole. The new text is written to a second file in the same folder, which then
//! takes the place of the old one. So whoever reads meanwhile sees one of the two texts, and the old one stands until
//! the new one is whole.

ghost use Rattle.std.specs.Prelude.{◌≡◌, ◌++◌, IfOk, string_bytes};
ghost use Rattle.wy_host.specs.FolderNames.{IsUnlistedIn};

use crate::plain_file::open_plain;
use std::alloc::{AllocError, Global};
use std::fs::{self, Metadata, OpenFile, OpenOptions, Permissions};
use std::io::{self, ErrorKind, Write};
use std::os::fd::AsFd;
use std::os::unix::fs::{MetadataExt, OpenOptionsExt, PermissionsExt, fchown};
use std::rt::Files;

/// How many names are tried for a second file. Each is taken only while a write goes on, or where one was cut off.
const MOST_NAMES: usize = 1_000;

/// What anyone may do with a new file, less what the machine's mask takes away.
const USUAL_MODE: u32 = 0o666;

/// What the owner alone may do with a file whose rights are still to be set.
const OWNER_MODE: u32 = 0o600;

/// The bits of a mode that say who may read, write and run a file.
const RIGHTS: u32 = 0o777;

/// A second file, which is to take the place of a file.
#[derive(Drop)]
pub struct Draft<F> {
    path: String,
    file: F,
    old: Option<Metadata>,
}

/// Returns the path of a second file in a folder. Its name is not a file name of the language, so `names` leaves it
/// out.
fn draft_path(alloc: Global, folder: &str, number: usize) -> Result<String, AllocError>
    ensures { IfOk result (λ path. IsUnlistedIn folder.now (string_bytes path)) }
{
    format!(in alloc; "{folder}/.wyvern-{number}")
}

/// Makes a second file with these rights in a folder, by the first name that nothing has.
fn make_draft<R: Files>(
    rt: &R,
    alloc: Global,
    folder: &str,
    mode: u32,
) -> io::Result<(String, R::File)>
    ensures { IfOk result (λ made. IsUnlistedIn folder.now (string_bytes made.0)) }
{
    let mut how = OpenOptions::new();
    how.write(true).create_new(true).mode(mode);
    for number in 0..MOST_NAMES {
        let path = draft_path(alloc, folder, number)?;
        match how.open(rt, path.as_str()) {
            Err(error) if error.kind() == ErrorKind::AlreadyExists => {}
            made => return Ok((path, made?)),
        }
    }
    Err(io::Error::from(ErrorKind::AlreadyExists))
}

/// Begins to replace the text of a plain file in a folder, which may be there or not. It changes nothing of the file,
/// and makes an empty file beside it.
///
/// # Errors
///
/// The file is not a plain file, may not be written, or the machine refuses. Then nothing was made.
pub fn begin<R: Files>(
    rt: &R,
    alloc: Global,
    folder: &str,
    path: &str,
) -> io::Result<Draft<R::File>>
    ensures { IfOk result (λ draft. IsUnlistedIn folder.now (string_bytes draft.path)) }
{
    // (opened to be written, though nothing is: a file that may not be written is not replaced either)
    let old = match open_plain(rt, OpenOptions::new().write(true), path)? {
        Some(file) => Some(file.metadata()?),
        None => None,
    };
    let mode = if old.is_some() {
        OWNER_MODE
    } else {
        USUAL_MODE
    };
    let (path, file) = make_draft(rt, alloc, folder, mode)?;
    Ok(Draft { path, file, old })
}

/// Returns what is left of a mode if the file's group is another one: whoever is not the owner may do what both the
/// old group and all others could.
fn for_another_group(mode: u32) -> u32 {
    let shared = (mode >> 3) & mode & 0o007;
    (mode & 0o700) | (shared << 3) | shared
}

/// Gives a file the rights that an old one had, and its group and its owner too if the machine lets the program.
fn take_rights<F: OpenFile + AsFd>(file: &F, old: &Metadata) -> io::Result<()> {
    let new = file.metadata()?;
    let mut mode = old.mode() & RIGHTS;
    if new.gid() != old.gid() && fchown(file.as_fd(), None, Some(old.gid())).is_err() {
        mode = for_another_group(mode);
    }
    if new.uid() != old.uid() {
        // (mostly refused: then the file is the program's user's, who could write the old one)
        let _given = fchown(file.as_fd(), Some(old.uid()), None);
    }
    // (some file systems have one mode for all files, and refuse to set one)
    if new.mode() & RIGHTS == mode {
        return Ok(());
    }
    file.set_permissions(Permissions::from_mode(mode))
}

/// Writes the whole text to the second file, and gives it the rights of the old one.
fn fill<F: Write + OpenFile + AsFd>(draft: &mut Draft<F>, bytes: &[u8]) -> io::Result<()> {
    draft.file.write_all(bytes)?;
    match &draft.old {
        Some(old) => take_rights(&draft.file, old),
        None => Ok(()),
    }
}

/// Puts the second file, with these bytes, in the place of the file of a path. What stands there then is replaced
/// whole, unless it is a folder. No link is followed.
///
/// # Errors
///
/// The machine refuses. Then what stands at the path is as it was, and the second file is removed.
pub fn replace<R: Files>(rt: &R, draft: Draft<R::File>, path: &str, bytes: &[u8]) -> io::Result<()>
where
    R::File: AsFd,
{
    let mut draft = draft;
    let replaced = match fill(&mut draft, bytes) {
        Ok(()) => fs::rename(rt, draft.path.as_str(), path),
        Err(error) => Err(error),
    };
    if replaced.is_err() {
        let _removed = fs::remove_file(rt, draft.path.as_str());
    }
    replaced
}
