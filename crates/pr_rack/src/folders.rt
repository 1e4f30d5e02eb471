// The folders of the machine in which a rack writes its plates.
use crate::RackFault;
use pr_base::PathText;
use std::alloc::Global;
use std::fs::{File, TryLockError};
use std::io::ErrorKind;
use std::rt::Files;
use std::{fs, io};

/// The folders in which plates were begun. Each stays locked until this value is dropped, so that no other
/// run writes to it.
#[derive(Drop)]
pub(crate) struct Folders {
    locked: Vec<(PathText, File)>,
}

/// The folder of the plate at `path`.
pub(crate) fn folder_of(path: &str) -> &str {
    match path.rsplit_once('/') {
        Some((folder, _)) if !folder.is_empty() => folder,
        Some(_) => "/",
        None => ".",
    }
}

/// Locks a folder, if its file system supports locks. Fails without waiting if another run holds the lock.
fn lock(folder: &File) -> io::Result<()> {
    match folder.try_lock() {
        Err(TryLockError::Error(error)) if error.kind() == ErrorKind::Unsupported => Ok(()),
        Err(error) => Err(error.into()),
        Ok(()) => Ok(()),
    }
}

/// Creates a folder and its parents, and locks it.
fn open_locked<R: Files<File = File>>(rt: &R, folder: &str) -> io::Result<File> {
    fs::create_dir_all(rt, folder)?;
    let opened = fs::open(rt, folder)?;
    lock(&opened)?;
    Ok(opened)
}

impl Folders {
    /// Returns an empty set of locked folders.
    pub(crate) fn new(alloc: Global) -> Folders {
        Folders {
            locked: Vec::new(alloc),
        }
    }

    /// Whether this set holds the lock of `folder`.
    fn has(&self, folder: &str) -> bool {
        self.locked.iter().any(|held| held.0.as_str() == folder)
    }

    /// Creates and locks a folder, unless this set already holds its lock.
    pub(crate) fn enter<R: Files<File = File> + AllocGlobal>(
        &mut self,
        rt: &R,
        folder: &str,
    ) -> Result<(), RackFault> {
        if self.has(folder) {
            return Ok(());
        }
        let path = PathText::of(rt.alloc(), folder).map_err(|_| RackFault::Memory)?;
        let opened = open_locked(rt, folder).map_err(|_| RackFault::Failed)?;
        self.locked
            .push((path, opened))
            .map_err(|_| RackFault::Memory)
    }
}
