//! The folders that are given for grants of a program.

ghost use Rattle.std.specs.Prelude.{◌≡◌, map};
ghost use Rattle.wy_settings.specs.Folders.{given_folder};
ghost use Rattle.wy_engine.specs.Folders.{fit_grants, fits_one, is_folder, is_folder_named};

use wy_code::code::Grant;
use wy_device::primitive::Primitive;
use wy_settings::GivenFolder;

/// Returns whether grants of a primitive type have a folder.
fn is_folder(primitive: Primitive) -> bool
    ensures { result ≡ is_folder primitive }
{
    matches!(primitive, Primitive::Folder | Primitive::FullFolder)
}

/// Returns whether a grant has this name and a folder.
fn is_folder_named(grant: &Grant, name: &str) -> bool
    ensures { result ≡ is_folder_named name.now grant.now }
{
    grant.name.as_bytes() == name.as_bytes() && is_folder(grant.primitive)
}

/// Returns whether a folder is given for one of the grants.
fn fits_one(grants: &[Grant], folder: &GivenFolder) -> bool
    ensures { result ≡ fits_one grants.now (given_folder folder.now) }
{
    let name = folder.grant.as_str();
    grants.iter().any(|grant| is_folder_named(grant, name))
}

/// Returns whether each folder is given for one of the grants. It takes no memory.
pub fn fit_grants(grants: &[Grant], folders: &[GivenFolder]) -> bool
    ensures { result ≡ fit_grants grants.now (map given_folder folders.now) }
{
    folders.iter().all(|folder| fits_one(grants, folder))
}
