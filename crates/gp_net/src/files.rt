//! The files of the system.
ghost use Rattle.std.specs.Prelude.{◌≡◌, List, ℕ, None, IfOk, IfSome};
ghost use Rattle.gp_outside.specs.Devices.{IsReadOf};

use gp_outside::{FileRead, Files};
use gp_plain::Body;
use std::alloc::Global;
use std::fs::{self, File};
use std::io::{self, Read};

/// The bytes of a file, at most.
const FILE: usize = 16777216;

/// The files of the system. They don't tell their contents, and count their faults.
#[derive(Drop)]
pub struct NetFiles<R: fs::Files + Drop> {
    alloc: Global,
    system: R,
    faults: u64,
}

/// The bytes of a reader to its end, or that they are too many, or that memory is wanting.
fn read_all<R: Read>(alloc: Global, reader: &mut R) -> io::Result<FileRead>
    ensures { IfOk result (λ read. IfSome (R.remaining reader.old) (λ (bytes : List ℕ). IsReadOf bytes read)) }
{
    let mut content = Vec::new(alloc);
    let mut part = [0u8; 8192];
    while content.len() <= FILE {
        let count = reader.read(&mut part)?;
        if count == 0 {
            return Ok(FileRead::Took(Body::from_vec(content)));
        }
        match content.extend_from_slice(&part[..count]) {
            Ok(()) => {}
            Err(_) => return Ok(FileRead::NoMemory),
        }
    }
    Ok(FileRead::TooLong)
}

impl<R: fs::Files + Drop> NetFiles<R> {
    /// The files of the system, without a fault so far.
    pub fn new(alloc: Global, system: R) -> NetFiles<R>
        ensures { result.faults ≡ 0 }
    {
        NetFiles {
            alloc,
            system,
            faults: 0,
        }
    }

    /// A read of a whole file.
    fn whole(&self, path: &str) -> io::Result<FileRead> {
        let mut file = File::open(&self.system, path)?;
        read_all(self.alloc, &mut file)
    }
}

impl<R: fs::Files + Drop> Files for NetFiles<R> {
    ghost content = { λ s path. None };

    ghost faults = { λ s. s.faults };

    fn read(&mut self, path: &str) -> FileRead {
        match self.whole(path) {
            Ok(FileRead::Took(content)) => FileRead::Took(content),
            Ok(FileRead::TooLong) => FileRead::TooLong,
            Ok(FileRead::NoMemory) => FileRead::NoMemory,
            Ok(FileRead::Failed) | Err(_) => {
                self.faults = self.faults.saturating_add(1);
                FileRead::Failed
            }
        }
    }
}
