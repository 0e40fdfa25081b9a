ghost use Rattle.std.specs.Prelude.{◌≡◌, ◌++◌, ◌∷◌, [], true, map, string_bytes, IfOk, OnOk};
ghost use Rattle.wy_device.specs.Requests.{in_lines, is_file_name};
ghost use Rattle.wy_host.specs.FolderNames.{HoldsFileNames, ListsFileNames};

use std::alloc::{AllocError, Global};
use std::collections::BTreeSet;
use wy_text::text::Memory;

/// Puts the name of a file among others.
pub fn put_name(alloc: Global, names: &mut BTreeSet<String>, name: &str) -> Result<(), AllocError>
    requires name { is_file_name name.now ≡ true }
    requires names { HoldsFileNames names.old }
    ensures { HoldsFileNames names.new }
{
    let name = String::from_str(alloc, name)?;
    names.insert(name)?;
    Ok(())
}

/// Adds a line.
fn push_line(lines: &mut Vec<u8>, line: &str) -> Result<(), AllocError>
    ensures { OnOk result (lines.new.items ≡ lines.old.items ++ line.now ++ 10 ∷ []) }
{
    lines.extend_from_slice(line.as_bytes())?;
    lines.push(b'\n')?;
    Ok(())
}

fn lines_of(alloc: Global, names: &BTreeSet<String>) -> Result<Vec<u8>, AllocError>
    ensures { IfOk result (λ lines. lines.items ≡ in_lines (map string_bytes names.now.keys)) }
{
    let mut lines = Vec::new(alloc);
    for name in names {
        push_line(&mut lines, name)?;
    }
    Ok(lines)
}

/// The names of files in byte order, each followed by a newline.
pub fn listing(alloc: Global, names: &BTreeSet<String>) -> Result<Vec<u8>, Memory>
    requires { HoldsFileNames names.now }
    ensures { IfOk result (λ lines. ListsFileNames lines.items) }
{
    Ok(lines_of(alloc, names)?)
}
