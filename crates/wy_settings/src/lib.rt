//! What the words of a call ask for (docs/LANGUAGE.md, "The command line").
#![tactic(auto)]

mod command_line;
mod folders;
mod matching;
mod numerals;
mod reading;

pub use command_line::{
    Command, CommandLine, GivenFolder, MOST_DEPTH, MOST_STEPS, Settings, SettingsRefusal,
    USUAL_DEPTH, USUAL_STEPS,
};
pub use reading::{sample_number, settings, texts_among};
