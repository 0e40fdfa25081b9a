//! Folders that are given for grants by name.

ghost use Rattle.std.specs.Prelude.{◌≡◌, OnSome, IfSome, IsNone, Some};
ghost use Rattle.std.specs.Option.{option_map};
ghost use Rattle.wy_host.specs.FolderPaths as paths;

use wy_text::text::Text;

/// The name of a grant, and the path of the folder that it uses.
#[derive(Drop)]
pub struct GrantFolder {
    pub grant: String,
    pub path: String,
}

impl GrantFolder {
    /// Whether this is for the grant of a name.
    fn is_for(&self, grant: &Text) -> bool
        ensures { result ≡ paths.is_for grant.now self.now }
    {
        self.grant.as_bytes() == grant.as_bytes()
    }
}

/// Returns the path that is given for a grant first; `None` where none is.
pub fn given_path<'a>(folders: &'a [GrantFolder], grant: &Text) -> Option<&'a str>
    ensures { option_map (λ path. path.now) result ≡ paths.given_path folders.now grant.now }
{
    folders
        .iter()
        .find(|folder| folder.is_for(grant))
        .map(|folder| folder.path.as_str())
}
