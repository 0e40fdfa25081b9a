use crate::asking::{Asked, all_are_answered, answer};
use std::os::unix::fs::{PermissionsExt, symlink};
use std::path::PathBuf;
use std::test::Fail;
use std::{env, fs, io, process};
use wy_device::operation::LONGEST_TEXT;
use wy_host::folder::RealFolder;
use wy_host::grant_folder::GrantFolder;
use wy_text::text::from_bytes;

/// Writes a file below a path.
fn write(rt: &HostRuntime, base: &str, name: &str, bytes: &[u8]) -> io::Result<()> {
    fs::write(rt, format!(in rt.alloc(); "{base}/{name}")?, bytes)
}

/// Makes a link below a path.
fn link(rt: &HostRuntime, base: &str, name: &str, target: &str) -> io::Result<()> {
    symlink(rt, target, format!(in rt.alloc(); "{base}/{name}")?)
}

/// Sets who may do what with a file below a path.
fn set_mode(rt: &HostRuntime, base: &str, name: &str, mode: u32) -> io::Result<()> {
    let path = format!(in rt.alloc(); "{base}/{name}")?;
    fs::set_permissions(rt, path, fs::Permissions::from_mode(mode))
}

/// Makes the folder of a grant `disk`, with a file that is too long, names that are no file names, a folder and
/// links, and a link to it beside it.
fn lay_out(rt: &HostRuntime, base: &str) -> io::Result<()> {
    let alloc = rt.alloc();
    fs::create_dir_all(rt, format!(in alloc; "{base}/disk/folder")?)?;
    write(rt, base, "outside", b"outside")?;
    write(rt, base, "disk/Upper", b"")?;
    write(rt, base, "disk/.hidden", b"")?;
    let long = vec![in alloc; 0u8; LONGEST_TEXT + 1]?;
    write(rt, base, "disk/long", long.as_slice())?;
    write(rt, base, "disk/full", &long.as_slice()[1..])?;
    fs::hard_link(
        rt,
        format!(in alloc; "{base}/outside")?,
        format!(in alloc; "{base}/disk/shared")?,
    )?;
    write(rt, base, "disk/.wyvern-0", b"of another write")?;
    write(rt, base, "disk/rights", b"")?;
    set_mode(rt, base, "disk/rights", 0o750)?;
    link(rt, base, "disk/link", "../outside")?;
    link(rt, base, "disk/gone", "../nothing")?;
    link(rt, base, "linked", "disk")
}

/// Operations in order.
static ROWS: [Asked; 42] = [
    ("none", "names", "", "", "failed"),
    ("none", "read", "a", "", "failed"),
    ("none", "has", "a", "", "failed"),
    ("none", "write", "a", "1", "failed"),
    ("none", "remove", "a", "", "failed"),
    ("linked", "names", "", "", "failed"),
    (".", "read", "outside", "", "failed"),
    ("disk", "names", "", "", "full\nlong\nrights\nshared\n"),
    ("disk", "write", "shared", "inside", "done"),
    ("disk", "read", "shared", "", "inside"),
    ("disk", "remove", "shared", "", "done"),
    ("disk", "write", "rights", "1", "done"),
    ("disk", "read", "a", "", ""),
    ("disk", "has", "a", "", "no"),
    ("disk", "write", "b", "one", "done"),
    ("disk", "append", "b", " two\n", "done"),
    ("disk", "append", "a", "three", "done"),
    ("disk", "read", "b", "", "one two\n"),
    ("disk", "has", "b", "", "yes"),
    ("disk", "write", "b", "1", "done"),
    ("disk", "read", "b", "", "1"),
    ("disk", "read", "long", "", "failed"),
    ("disk", "read", "../outside", "", "failed"),
    ("disk", "has", "link", "", "no"),
    ("disk", "read", "link", "", "failed"),
    ("disk", "write", "link", "1", "failed"),
    ("disk", "append", "link", "1", "failed"),
    ("disk", "write", "gone", "1", "failed"),
    ("disk", "has", "folder", "", "no"),
    ("disk", "read", "folder", "", "failed"),
    ("disk", "names", "", "", "a\nb\nfull\nlong\nrights\n"),
    ("linked", "remove", "a", "", "failed"),
    ("disk", "remove", "../outside", "", "failed"),
    ("disk", "remove", "link", "", "failed"),
    ("disk", "remove", "gone", "", "failed"),
    ("disk", "remove", "folder", "", "failed"),
    ("disk", "names", "", "", "a\nb\nfull\nlong\nrights\n"),
    ("disk", "remove", "a", "", "done"),
    ("disk", "has", "a", "", "no"),
    ("disk", "remove", "a", "", "done"),
    ("disk", "remove", "long", "", "done"),
    ("disk", "names", "", "", "b\nfull\nrights\n"),
];

/// Whether a file below a path has this text.
fn holds(rt: &HostRuntime, base: &str, name: &str, text: &str) -> Result<bool, Fail> {
    let path = format!(in rt.alloc(); "{base}/{name}")?;
    Ok(fs::read_to_string(rt, path)?.as_str() == text)
}

/// Whether something stands below a path, or a link does.
fn is_there(rt: &HostRuntime, base: &str, name: &str) -> Result<bool, Fail> {
    let path = format!(in rt.alloc(); "{base}/{name}")?;
    Ok(fs::symlink_metadata(rt, path).is_ok())
}

/// Whether what the folder may not reach is as it was, and no second file is left of a write.
fn is_kept(rt: &HostRuntime, base: &str) -> Result<bool, Fail> {
    Ok(
        holds(rt, base, "outside", "outside")?
            && holds(rt, base, "disk/.wyvern-0", "of another write")?
            && !is_there(rt, base, "nothing")?
            && !is_there(rt, base, "disk/.wyvern-1")?,
    )
}

/// Returns who may do what with a file below a path.
fn mode_of(rt: &HostRuntime, base: &str, name: &str) -> Result<u32, Fail> {
    let path = format!(in rt.alloc(); "{base}/{name}")?;
    Ok(fs::metadata(rt, path)?.permissions().mode() & 0o777)
}

/// Asks the folder of a path, and those that are given.
fn ask(
    rt: &HostRuntime,
    base: &str,
    folders: Vec<GrantFolder>,
    asked: &[Asked],
) -> Result<(), Fail> {
    let alloc = rt.alloc();
    let base = String::from_str(alloc, base)?;
    let mut folder = RealFolder::new(alloc, rt.clone()?, base, folders);
    all_are_answered(alloc, &mut folder, asked)
}

/// Returns how many bytes are read of a file of the grant `disk`.
fn length_of(rt: &HostRuntime, base: &str, name: &str) -> Result<usize, Fail> {
    let alloc = rt.alloc();
    let base = String::from_str(alloc, base)?;
    let mut folder = RealFolder::new(alloc, rt.clone()?, base, Vec::new(alloc));
    let name = from_bytes(alloc, name.as_bytes())?;
    let read = answer(alloc, &mut folder, "disk", "read", name, "")?;
    Ok(read.as_bytes().len())
}

/// Returns the path of a folder for one test, which is not there yet.
fn base(rt: &HostRuntime, test: &str) -> Result<PathBuf, Fail> {
    let mut path = env::temp_dir(rt)?;
    path.push(format!(in rt.alloc(); "wyvern_{test}_{}", process::id(rt.process()))?)?;
    Ok(path)
}

#[test]
fn a_folder_holds_plain_files_and_leads_nowhere_else(rt: HostRuntime) -> Result<(), Fail> {
    let path = base(&rt, "folder")?;
    let base = path.as_path().to_str().ok_or("a path")?;
    lay_out(&rt, base)?;
    ask(&rt, base, Vec::new(rt.alloc()), &ROWS)?;
    assert!(rt; is_kept(&rt, base)?);
    assert!(rt; mode_of(&rt, base, "disk/rights")? == 0o750);
    assert!(rt; length_of(&rt, base, "full")? == LONGEST_TEXT);
    for name in ["link", "gone", "folder", "Upper", ".hidden"] {
        let name = format!(in rt.alloc(); "disk/{name}")?;
        assert!(rt; is_there(&rt, base, name.as_str())?, "{name}");
    }
    fs::remove_dir_all(&rt, base)?;
    Ok(())
}

/// Makes the folder of a grant `disk`, with a file and every second file that a write could make.
fn lay_out_crowded(rt: &HostRuntime, base: &str) -> io::Result<()> {
    let alloc = rt.alloc();
    fs::create_dir_all(rt, format!(in alloc; "{base}/disk")?)?;
    write(rt, base, "disk/a", b"old")?;
    for number in 0..1_000 {
        let name = format!(in alloc; "disk/.wyvern-{number}")?;
        write(rt, base, name.as_str(), b"")?;
    }
    Ok(())
}

/// Operations in order, where no write can make its second file.
static CROWDED_ROWS: [Asked; 6] = [
    ("disk", "write", "a", "new", "failed"),
    ("disk", "read", "a", "", "old"),
    ("disk", "write", "b", "new", "failed"),
    ("disk", "has", "b", "", "no"),
    ("disk", "append", "a", " text", "done"),
    ("disk", "read", "a", "", "old text"),
];

#[test]
fn a_write_that_fails_leaves_the_old_text(rt: HostRuntime) -> Result<(), Fail> {
    let path = base(&rt, "crowded")?;
    let base = path.as_path().to_str().ok_or("a path")?;
    lay_out_crowded(&rt, base)?;
    ask(&rt, base, Vec::new(rt.alloc()), &CROWDED_ROWS)?;
    fs::remove_dir_all(&rt, base)?;
    Ok(())
}

/// Makes a folder `disk` and a folder `other`, with a file and a link each, and a link to the second.
fn lay_out_given(rt: &HostRuntime, base: &str) -> io::Result<()> {
    let alloc = rt.alloc();
    fs::create_dir_all(rt, format!(in alloc; "{base}/disk")?)?;
    fs::create_dir_all(rt, format!(in alloc; "{base}/other")?)?;
    write(rt, base, "disk/a", b"of disk")?;
    write(rt, base, "other/a", b"of other")?;
    link(rt, base, "other/inner", "a")?;
    link(rt, base, "given", "other")
}

/// The way from any folder up to the root.
const UP: &str = "../../../../../../../../../../../../../../../../../../../../../../../..";

/// Returns the pairs of a grant and a path, of which each path begins with the front and ends in this name.
fn given(rt: &HostRuntime, base: &str) -> Result<Vec<GrantFolder>, Fail> {
    let alloc = rt.alloc();
    let mut folders = Vec::new(alloc);
    for (grant, front, name) in [
        ("full", "", "other"),
        ("full", "", "disk"),
        ("relative", UP, "other"),
        ("linked", "", "given"),
        ("missing", "", "none"),
        ("file", "", "disk/a"),
    ] {
        folders.push(GrantFolder {
            grant: String::from_str(alloc, grant)?,
            path: format!(in alloc; "{front}{base}/{name}")?,
        })?;
    }
    Ok(folders)
}

/// Operations in order, where folders are given for some grants.
static GIVEN_ROWS: [Asked; 13] = [
    ("disk", "read", "a", "", "of disk"),
    ("full", "read", "a", "", "of other"),
    ("relative", "read", "a", "", "of other"),
    ("linked", "read", "a", "", "of other"),
    ("linked", "names", "", "", "a\n"),
    ("linked", "read", "inner", "", "failed"),
    ("linked", "write", "b", "new", "done"),
    ("relative", "append", "b", " text", "done"),
    ("full", "read", "b", "", "new text"),
    ("missing", "names", "", "", "failed"),
    ("file", "names", "", "", "failed"),
    ("given", "names", "", "", "failed"),
    ("disk", "names", "", "", "a\n"),
];

#[test]
fn a_folder_may_be_given_for_a_grant(rt: HostRuntime) -> Result<(), Fail> {
    let path = base(&rt, "given")?;
    let base = path.as_path().to_str().ok_or("a path")?;
    lay_out_given(&rt, base)?;
    ask(&rt, base, given(&rt, base)?, &GIVEN_ROWS)?;
    fs::remove_dir_all(&rt, base)?;
    Ok(())
}
