ghost use Rattle.std.specs.Prelude.{◌≡◌, None};
ghost use Rattle.wy_text.specs.Shelf.{ShelfState};

use std::alloc::Global;
use std::fs;
use std::io::{self, ErrorKind, Read};
use std::rt::Files;
use wy_text::shelf::{ReadError, Shelf};

/// The files of the machine, by names under the working folder or by full paths. It tells no files and no reads.
#[derive(Drop)]
pub struct RealFiles<R> {
    alloc: Global,
    rt: R,
    faults: u64,
}

impl<R: Files + Drop> RealFiles<R> {
    pub fn new(alloc: Global, rt: R) -> RealFiles<R> {
        RealFiles {
            alloc,
            rt,
            faults: 0,
        }
    }
}

/// The first bytes of a file.
fn first_bytes<R: Files>(rt: &R, alloc: Global, name: &str, most: usize) -> io::Result<Vec<u8>> {
    let file = fs::open(rt, name)?;
    let mut bytes = Vec::new(alloc);
    file.take(most as u64).read_to_end(&mut bytes)?;
    Ok(bytes)
}

impl<R: Files + Drop> Shelf for RealFiles<R> {
    ghost state = { λ s. record { files = None; reads = None; faults = s.faults } };

    fn read(&mut self, name: &str, most: usize) -> Result<Vec<u8>, ReadError> {
        match first_bytes(&self.rt, self.alloc, name, most) {
            Ok(bytes) => Ok(bytes),
            Err(error) => {
                if error.kind() == ErrorKind::OutOfMemory {
                    return Err(ReadError::Memory);
                }
                self.faults = self.faults.saturating_add(1);
                Err(ReadError::Failed)
            }
        }
    }
}
