//! The folders that words give for grants.

ghost use Rattle.std.specs.Prelude.{◌≡◌, IfOk, [], map};
ghost use Rattle.std.specs.Option.{option_map};
ghost use Rattle.wy_settings.specs.Folders.{folder_in, folders_after, given_folder, is_for, is_given};

use crate::command_line::GivenFolder;
use std::alloc::{AllocError, Global};
use wy_layout::is_identifier;

/// Returns the grant and the path that a word gives; `None` if it gives none.
fn folder_in<'w>(word: &'w str) -> Option<(&'w str, &'w str)>
    ensures { option_map (λ f. record { grant = f.0.now; path = f.1.now }) result ≡ folder_in word.now }
{
    let (grant, path) = word.split_once('=')?;
    if !path.is_empty() && is_identifier(grant.as_bytes()) {
        Some((grant, path))
    } else {
        None
    }
}

/// Returns whether a folder is for a grant.
fn is_for(folder: &GivenFolder, grant: &str) -> bool
    ensures { result ≡ is_for grant.now (given_folder folder.now) }
{
    folder.grant.as_bytes() == grant.as_bytes()
}

/// Returns whether a folder is given for a grant.
fn is_given(folders: &[GivenFolder], grant: &str) -> bool
    ensures { result ≡ is_given (map given_folder folders.now) grant.now }
{
    folders.iter().any(|folder| is_for(folder, grant))
}

/// Copies the grant and the path of a folder.
fn copied(alloc: Global, grant: &str, path: &str) -> Result<GivenFolder, AllocError>
    ensures { IfOk result (λ f. given_folder f ≡ record { grant = grant.now; path = path.now }) }
{
    Ok(GivenFolder {
        grant: String::from_str(alloc, grant)?,
        path: String::from_str(alloc, path)?,
    })
}

/// Returns the folders that words give; `None` if one of the words gives none, or if two give one for the same grant.
pub fn given_folders(alloc: Global, words: &[&str]) -> Result<Option<Vec<GivenFolder>>, AllocError>
    ensures { IfOk result (λ found. option_map (λ folders. map given_folder folders.items) found ≡ folders_after [] (map (λ word. word.now) words.now)) }
{
    let mut folders = Vec::new(alloc);
    for word in words {
        let Some((grant, path)) = folder_in(word) else {
            return Ok(None);
        };
        if is_given(folders.as_slice(), grant) {
            return Ok(None);
        }
        folders.push(copied(alloc, grant, path)?)?;
    }
    Ok(Some(folders))
}
