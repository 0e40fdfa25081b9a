//! Plain files of the machine. No symbolic link is followed: a file is opened only where a plain file stands by
//! its name, and what was opened is used only where it is the very file that was seen there.

ghost use Rattle.std.specs.Prelude.{IfOk};
ghost use Rattle.wy_host.specs.FolderNames.{HoldsFileNames};

use crate::listing::put_name;
use std::alloc::Global;
use std::collections::BTreeSet;
use std::fs::{self, DirEntry, Metadata, OpenFile, OpenOptions};
use std::io::{self, ErrorKind, Read, Write};
use std::os::unix::fs::MetadataExt;
use std::rt::Files;
use wy_device::file_name::is_file_name;

/// What stands by a name itself, and not behind a link there; `None` where nothing does.
fn seen_at<R: Files>(rt: &R, path: &str) -> io::Result<Option<Metadata>> {
    match fs::symlink_metadata(rt, path) {
        Ok(seen) => Ok(Some(seen)),
        Err(error) if error.kind() == ErrorKind::NotFound => Ok(None),
        Err(error) => Err(error),
    }
}

/// Whether a plain file stands by this name.
pub fn is_plain_file<R: Files>(rt: &R, path: &str) -> io::Result<bool> {
    match seen_at(rt, path)? {
        Some(seen) => Ok(seen.is_file()),
        None => Ok(false),
    }
}

/// Whether a folder stands by this name.
pub fn is_folder<R: Files>(rt: &R, path: &str) -> io::Result<bool> {
    match seen_at(rt, path)? {
        Some(seen) => Ok(seen.is_dir()),
        None => Ok(false),
    }
}

/// Whether a path leads to a folder, which may be behind links.
pub fn leads_to_folder<R: Files>(rt: &R, path: &str) -> io::Result<bool> {
    match fs::metadata(rt, path) {
        Ok(seen) => Ok(seen.is_dir()),
        Err(error) if error.kind() == ErrorKind::NotFound => Ok(false),
        Err(error) => Err(error),
    }
}

/// Whether two looks saw one file.
fn is_same_file(one: &Metadata, other: &Metadata) -> bool {
    one.dev() == other.dev() && one.ino() == other.ino()
}

/// How often a file is looked at and opened, as long as other programs make it, remove it or replace it in between.
const ROUNDS: usize = 1_000;

/// Whether an error means that a file came, went or was replaced between a look and an opening.
fn has_changed(error: &io::Error) -> bool {
    matches!(
        error.kind(),
        ErrorKind::NotFound | ErrorKind::AlreadyExists | ErrorKind::ResourceBusy
    )
}

/// Opens the plain file of this name once; `None` where nothing stands there.
///
/// Between the look and the opening the machine may put something else there, so what was opened is compared
/// with what was seen. Until then it is neither read nor changed.
fn open_seen<R: Files>(rt: &R, how: &OpenOptions, path: &str) -> io::Result<Option<R::File>> {
    let Some(seen) = seen_at(rt, path)? else {
        return Ok(None);
    };
    if !seen.is_file() {
        return Err(io::Error::from(ErrorKind::Unsupported));
    }
    let file = how.open(rt, path)?;
    let opened = file.metadata()?;
    if !is_same_file(&seen, &opened) {
        return Err(io::Error::from(ErrorKind::ResourceBusy));
    }
    Ok(Some(file))
}

/// Opens the plain file of this name; `None` where nothing stands there.
pub fn open_plain<R: Files>(rt: &R, how: &OpenOptions, path: &str) -> io::Result<Option<R::File>> {
    for _ in 0..ROUNDS {
        match open_seen(rt, how, path) {
            Err(error) if has_changed(&error) => {}
            outcome => return outcome,
        }
    }
    Err(io::Error::from(ErrorKind::ResourceBusy))
}

/// Opens the plain file of this name once to add to its end, and makes it where nothing stands there.
fn open_or_make<R: Files>(rt: &R, path: &str) -> io::Result<R::File> {
    match open_seen(rt, OpenOptions::new().append(true), path)? {
        Some(file) => Ok(file),
        None => OpenOptions::new()
            .append(true)
            .create_new(true)
            .open(rt, path),
    }
}

/// Opens the plain file of this name to add to its end, and makes it where nothing stands there.
fn open_end<R: Files>(rt: &R, path: &str) -> io::Result<R::File> {
    for _ in 0..ROUNDS {
        match open_or_make(rt, path) {
            Err(error) if has_changed(&error) => {}
            outcome => return outcome,
        }
    }
    Err(io::Error::from(ErrorKind::ResourceBusy))
}

/// The first bytes of a plain file, at most so many; none where nothing stands by its name.
pub fn read_file<R: Files>(rt: &R, alloc: Global, path: &str, most: u64) -> io::Result<Vec<u8>> {
    let mut bytes = Vec::new(alloc);
    if let Some(file) = open_plain(rt, OpenOptions::new().read(true), path)? {
        file.take(most).read_to_end(&mut bytes)?;
    }
    Ok(bytes)
}

/// Puts these bytes at the end of a plain file, which may be there or not. After an error a first part of them may
/// stand there.
pub fn append_file<R: Files>(rt: &R, path: &str, bytes: &[u8]) -> io::Result<()> {
    let mut file = open_end(rt, path)?;
    file.write_all(bytes)
}

/// Takes away the plain file of this name; nothing where nothing stands there.
///
/// Between the look and the removal the machine may put something else there. Then that goes, where it is no folder, and
/// nothing else: no link is followed.
pub fn remove_file<R: Files>(rt: &R, path: &str) -> io::Result<()> {
    let Some(seen) = seen_at(rt, path)? else {
        return Ok(());
    };
    if !seen.is_file() {
        return Err(io::Error::from(ErrorKind::Unsupported));
    }
    match fs::remove_file(rt, path) {
        Err(error) if error.kind() == ErrorKind::NotFound => Ok(()),
        removed => removed,
    }
}

/// Puts the name of an entry among others, where it is a file name and a plain file stands by it.
fn put_plain<R: Files + AllocGlobal + Clone + Drop>(
    rt: &R,
    names: &mut BTreeSet<String>,
    entry: &DirEntry<R>,
) -> io::Result<()>
    requires { HoldsFileNames names.old }
    ensures { HoldsFileNames names.new }
{
    let name = entry.file_name();
    if is_file_name(name.as_bytes()) && is_plain_file(rt, entry.path().as_str())? {
        put_name(rt.alloc(), names, name)?;
    }
    Ok(())
}

/// Puts the name of what the machine gave for an entry among others.
fn put_entry<R: Files + AllocGlobal + Clone + Drop>(
    rt: &R,
    names: &mut BTreeSet<String>,
    entry: io::Result<DirEntry<R>>,
) -> io::Result<()>
    requires { HoldsFileNames names.old }
    ensures { HoldsFileNames names.new }
{
    match entry {
        Ok(entry) => put_plain(rt, names, &entry),
        // A name that is no text is no file name.
        Err(error) if error.kind() == ErrorKind::InvalidFilename => Ok(()),
        Err(error) => Err(error),
    }
}

/// The names of the plain files in a folder that are file names. Whatever else is there is left out.
pub fn file_names<R: Files + AllocGlobal + Clone + Drop>(
    rt: &R,
    folder: &str,
) -> io::Result<BTreeSet<String>>
    ensures { IfOk result HoldsFileNames }
{
    let entries = fs::read_dir(rt, folder)?;
    let mut names = BTreeSet::new(rt.alloc());
    for entry in entries {
        put_entry(rt, &mut names, entry)?;
    }
    Ok(names)
}
