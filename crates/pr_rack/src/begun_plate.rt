// A plate begun on the machine: its file, under a temporary name until it is complete.
ghost use Rattle.std.specs.Prelude.{◌≡◌, length};

use crate::RackFault;
use crate::delivery::{PlateFile, deliver};
use crate::folders::{Folders, folder_of};
use crate::plate_file::{BLOCK, append_head, close_block, write_offset};
use crate::plate_name::PlateName;
use pr_base::Counted;
use std::fs::File;
use std::io::{BufWriter, ErrorKind};
use std::rt::Files;
use std::{fs, io};

/// The names of a plate, and its file with a buffer for the bytes that are not yet written.
#[derive(Drop)]
pub(crate) struct BegunPlate {
    name: PlateName,
    pub(crate) file: Counted<BufWriter<File>>,
}

/// Creates an empty file for a plate. Removes an existing entry of that name; a symbolic link is not
/// followed.
fn create<R: Files<File = File>>(rt: &R, part: &str) -> io::Result<File> {
    match fs::remove_file(rt, part) {
        Err(error) if error.kind() != ErrorKind::NotFound => Err(error),
        _ => File::create_new(rt, part),
    }
}

/// Whether this path is a directory, where a plate cannot be written.
fn is_folder<R: Files>(rt: &R, path: &str) -> bool {
    match fs::symlink_metadata(rt, path) {
        Ok(found) => found.is_dir(),
        Err(_) => false,
    }
}

/// Creates the file of a plate, with a buffer of `BLOCK` bytes. If the buffer cannot be allocated, bytes are
/// written unbuffered.
fn create_plate<R: Files<File = File> + AllocGlobal>(
    rt: &R,
    name: &PlateName,
) -> io::Result<BufWriter<File>> {
    if is_folder(rt, name.plate()) {
        return Err(io::Error::from(ErrorKind::IsADirectory));
    }
    match BufWriter::with_capacity(rt.alloc(), BLOCK, create(rt, name.part())?) {
        Ok(file) => Ok(file),
        Err(_) => BufWriter::with_capacity(rt.alloc(), 0, create(rt, name.part())?),
    }
}

/// Begins the plate at `path` with its head. Locks the plate's folder.
pub(crate) fn begin_plate<R: Files<File = File> + AllocGlobal>(
    rt: &R,
    folders: &mut Folders,
    path: &str,
    head: &[u8],
) -> Result<BegunPlate, RackFault>
    requires { length head.now ≡ 8 }
{
    let name = PlateName::of(rt.alloc(), path).map_err(|_| RackFault::Memory)?;
    folders.enter(rt, folder_of(path))?;
    let file = create_plate(rt, &name).map_err(|_| RackFault::Failed)?;
    let mut file = Counted::new(file, 0);
    if !append_head(&mut file, head) {
        return Err(RackFault::Failed);
    }
    Ok(BegunPlate { name, file })
}

/// The file of a plate on the machine, complete except for the offset of its directory.
#[derive(Drop)]
struct WrittenPlate<'a, R: Files<File = File>> {
    rt: &'a R,
    name: PlateName,
    file: Counted<File>,
}

impl<R: Files<File = File>> PlateFile for WrittenPlate<'_, R> {
    ghost use Rattle.std.specs.Prelude.{None};

    ghost calls = { λ _. None };

    fn place(&mut self, at: u32) -> bool {
        write_offset(&mut self.file, at)
    }

    fn sync(&mut self) -> bool {
        self.file.keep()
    }

    fn rename(&mut self) -> bool {
        fs::rename(self.rt, self.name.part(), self.name.plate()).is_ok()
    }

    fn sync_folder(&mut self) -> bool {
        match fs::open(self.rt, folder_of(self.name.plate())) {
            Ok(folder) => folder.sync_all().is_ok(),
            Err(_) => false,
        }
    }
}

/// Writes the tail of a plate and the offset `at` of its directory, and gives the file the plate's name.
/// Returns false if the machine failed.
pub(crate) fn complete<R: Files<File = File>>(
    rt: &R,
    plate: BegunPlate,
    tail: &[u8],
    at: u32,
) -> bool {
    let BegunPlate { name, file } = plate;
    let Some(file) = close_block(file, tail) else {
        return false;
    };
    deliver(&mut WrittenPlate { rt, name, file }, at)
}
