ghost use Rattle.std.specs.Prelude.{◌≡◌};
ghost use Rattle.wy_settings.specs.Settings.{settings_kept, settings_of_line};

/// What the program does with its files (docs/LANGUAGE.md, "The command line").
#[derive(Clone, Copy, PartialEq, Eq)]
pub enum Command {
    /// Checks the files, and says whether they are accepted.
    Check,
    /// Checks the files, and writes the report of the authority of an accepted program.
    Authority,
    /// Checks the files, prints the report, and runs the program.
    Run,
    /// Does as `Run`, and writes a line for each event of the run.
    Trace,
    /// Does as `Run` with the sample of a number, and writes a line that sums up the run if it ended.
    Sample,
    /// Writes the canonical form of one file.
    Format,
    /// Checks the files after the first, and says whether their program keeps to the policy in the first.
    Policy,
    /// Does as `Run`, and then writes which atoms each instance used.
    Observe,
    /// Checks the files, and writes a certificate that proves their program.
    Certify,
    /// Says whether the first file is a certificate that proves the program of the files after it.
    Recheck,
}

/// A folder that the words give for a grant: the grant's name, and the path of the folder.
#[derive(Drop)]
pub struct GivenFolder {
    pub grant: String,
    pub path: String,
}

/// A command, how many steps a run may take, how many calls on objects may be open in it at once, the folders that are
/// given for grants, and the file arguments.
#[derive(Clone, Copy)]
pub struct CommandLine<'a> {
    pub command: Command,
    pub steps: u64,
    pub depth: u32,
    pub folders: &'a [GivenFolder],
    pub files: &'a [String],
}

/// The settings that the words of a call give: a command line that keeps its own words.
#[derive(Drop)]
pub struct Settings {
    pub command: Command,
    pub steps: u64,
    pub depth: u32,
    pub folders: Vec<GivenFolder>,
    pub files: Vec<String>,
}

/// Why words give no settings.
#[derive(Clone, Copy, PartialEq, Eq)]
pub enum SettingsRefusal {
    /// The words are an invalid command line.
    Usage,
    /// Memory ran out.
    Memory,
}

/// How many steps a run may take, if the words do not say.
pub const USUAL_STEPS: u64 = 10_000_000;

/// The most steps that the words may say.
pub const MOST_STEPS: u64 = 1_000_000_000_000;

/// How many calls on objects may be open in a run at once, if the words do not say.
pub const USUAL_DEPTH: u32 = 10_000;

/// The most such calls that the words may say.
pub const MOST_DEPTH: u32 = 100_000;

impl Settings {
    /// Returns the command line of the settings. It takes no memory.
    pub fn line(&self) -> CommandLine<'_>
        ensures { settings_kept self.now ≡ settings_of_line result }
    {
        CommandLine {
            command: self.command,
            steps: self.steps,
            depth: self.depth,
            folders: self.folders.as_slice(),
            files: self.files.as_slice(),
        }
    }
}
