//! The outside in memory: a device of each kind, a shelf of files and a sink. Tests and programs that try a plug-in hand
//! them in where the machine's own would be, and tell them at which calls to fail.
#![tactic(auto)]

mod call_record;
mod folder_files;
mod mem_clock;
mod mem_console;
mod mem_folder;
mod mem_random;
mod mem_shelf;
mod mem_sink;

pub use folder_files::{FolderFile, FolderList};
pub use mem_clock::MemClock;
pub use mem_console::MemConsole;
pub use mem_folder::MemFolder;
pub use mem_random::{MemRandom, NumberList};
pub use mem_shelf::MemShelf;
pub use mem_sink::MemSink;
