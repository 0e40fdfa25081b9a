use super::{are_told, failing_at};
use crate::asking::{Asked, all_are_answered, answer};
use std::alloc::Global;
use std::test::Fail;
use wy_device::device::Device;
use wy_device::operation::LONGEST_TEXT;
use wy_memory::{FolderFile, FolderList, MemFolder};
use wy_text::list::Items;
use wy_text::text::{Memory, Text, from_bytes, from_vec};

/// Files of a folder: the grant, the name and the text of each.
static FILES: [(&str, &str, &str); 4] = [
    ("d", "b", "1"),
    ("d", "a", "2"),
    ("e", "a", "3"),
    ("d", "b", "4"),
];

/// Operations on it in order.
static ASKED: [Asked; 21] = [
    ("d", "read", "b", "", "1"),
    ("d", "read", "c", "", ""),
    ("d", "has", "a", "", "yes"),
    ("e", "has", "b", "", "no"),
    ("d", "names", "", "", "a\nb\n"),
    ("e", "names", "", "", "a\n"),
    ("e", "write", "b", "x", "done"),
    ("d", "read", "b", "", "1"),
    ("e", "append", "b", "y", "done"),
    ("e", "read", "b", "", "xy"),
    ("e", "append", "A", "z", "done"),
    ("e", "names", "", "", "A\na\nb\n"),
    ("f", "names", "", "", ""),
    ("e", "write", "b", "q", "failed"),
    ("e", "read", "b", "", "xy"),
    ("d", "remove", "b", "", "done"),
    ("d", "has", "b", "", "no"),
    ("d", "remove", "b", "", "done"),
    ("d", "names", "", "", "a\n"),
    ("e", "names", "", "", "A\na\nb\n"),
    ("e", "read", "b", "", "xy"),
];

fn file(alloc: Global, grant: &str, name: &str, text: &str) -> Result<FolderFile, Memory> {
    Ok(FolderFile {
        grant: from_bytes(alloc, grant.as_bytes())?,
        name: from_bytes(alloc, name.as_bytes())?,
        text: from_bytes(alloc, text.as_bytes())?,
    })
}

fn listed(alloc: Global, files: &[(&str, &str, &str)]) -> Result<FolderList, Memory> {
    let mut list = Items::new(alloc);
    for (grant, name, text) in files {
        list.push(file(alloc, grant, name, text)?)?;
    }
    Ok(list)
}

/// A folder with the files, which fails at the call with this number.
fn folder(alloc: Global, call: u64) -> Result<MemFolder, Memory> {
    let files = listed(alloc, &FILES)?;
    MemFolder::new(alloc, files, failing_at(alloc, call)?)
}

#[test]
fn a_folder_keeps_the_files_of_each_grant(rt: HostRuntime) -> Result<(), Fail> {
    let mut folder = folder(rt.alloc(), 14)?;
    all_are_answered(rt.alloc(), &mut folder, &ASKED)?;
    assert!(rt; are_told(folder.deeds(), 21, 13));
    Ok(())
}

fn repeated(alloc: Global, size: usize) -> Result<Text, Memory> {
    Ok(from_vec(vec![in alloc; b'x'; size]?))
}

/// A folder with one file: its text has so many bytes, and its name one less.
fn full(alloc: Global, size: usize) -> Result<MemFolder, Memory> {
    let mut files: FolderList = Items::new(alloc);
    files.push(FolderFile {
        grant: from_bytes(alloc, b"d")?,
        name: repeated(alloc, size.saturating_sub(1))?,
        text: repeated(alloc, size)?,
    })?;
    MemFolder::new(alloc, files, Items::new(alloc))
}

/// What such a folder answers to an operation on its file.
fn answer_of(alloc: Global, size: usize, word: &str) -> Result<Text, Memory> {
    let mut folder = full(alloc, size)?;
    let name = repeated(alloc, size.saturating_sub(1))?;
    answer(alloc, &mut folder, "d", word, name, "")
}

/// Whether it answers so many bytes.
fn is_answered(alloc: Global, size: usize, word: &str, count: usize) -> Result<bool, Memory> {
    Ok(answer_of(alloc, size, word)?.as_bytes().len() == count)
}

/// Whether it fails.
fn is_refused(alloc: Global, size: usize, word: &str) -> Result<bool, Memory> {
    Ok(answer_of(alloc, size, word)?.as_bytes() == b"failed".as_slice())
}

#[test]
fn a_folder_fails_at_a_text_past_the_limit(rt: HostRuntime) -> Result<(), Fail> {
    let alloc = rt.alloc();
    for word in ["read", "names"] {
        assert!(rt;
            is_answered(alloc, LONGEST_TEXT, word, LONGEST_TEXT)?,
            "{word}"
        );
        assert!(rt; is_refused(alloc, LONGEST_TEXT + 1, word)?, "{word}");
    }
    assert!(rt; is_answered(alloc, LONGEST_TEXT + 1, "has", b"yes".len())?);
    Ok(())
}
