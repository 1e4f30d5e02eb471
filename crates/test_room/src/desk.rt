// A shelf of plans, images and plates, some with other bytes than their own.
ghost use Rattle.std.specs.Prelude.{None};

use crate::plans::{SmallPlan, plan_text};
use crate::plates::Plate;
use pr_base::{NoMemory, raised};
use pr_ports::{LoadFault, Shelf};
use std::alloc::Global;
use tif_make::make_image;
use worked_files::{FORM, SAMPLES, plate_of};

/// What is at a path.
#[derive(Clone, Copy)]
pub enum Held<'a> {
    /// The text of a plan.
    Plan(&'a str),
    /// The same in two parts.
    Parts(&'a str, &'a str),
    Small(&'a SmallPlan<'a>),
    Bytes(&'a [u8]),
    /// The image of 4 by 1 pixels.
    Image,
    /// The image with this byte at this offset.
    Changed(usize, u8),
    /// The plate of the path.
    Right,
    /// The plate with all bits of the byte at this offset inverted.
    Turned(usize),
    /// This many bytes of the plate, from the start.
    Front(usize),
    /// The plate with a byte 0 appended.
    Longer,
    /// Nothing.
    Missing,
    /// More bytes than a load accepts.
    TooLong,
}

/// A path, and what is there.
pub type File<'a> = (&'a str, Held<'a>);

/// A shelf with these files and plates, in place of which the paths of `wrong` have what is said there. Loads
/// of other paths fail, and so does the load with the number in `failing`. It counts its loads, and its
/// contracts report nothing of its files.
#[derive(Drop)]
pub struct Desk<'a> {
    pub alloc: Global,
    pub files: &'a [File<'a>],
    pub plates: &'a [Plate<'a>],
    pub wrong: &'a [File<'a>],
    pub failing: Option<u64>,
    pub loads: u64,
    pub faults: u64,
    pub longs: u64,
}

/// Returns the bytes that a path has, which has this plate if it is a plate's.
fn bytes_of(alloc: Global, held: Held<'_>, plate: Option<Plate<'_>>) -> Result<Vec<u8>, NoMemory> {
    let mut bytes = unchanged(alloc, held, plate)?;
    match held {
        Held::Changed(at, with) => {
            if let Some(byte) = bytes.get_mut(at) {
                *byte = with;
            }
        }
        Held::Turned(at) => {
            if let Some(byte) = bytes.get_mut(at) {
                *byte = !*byte;
            }
        }
        Held::Front(len) => bytes.truncate(len),
        Held::Longer => bytes.push(0)?,
        _ => {}
    }
    Ok(bytes)
}

/// Returns the bytes that are changed to what a path has.
fn unchanged(alloc: Global, held: Held<'_>, plate: Option<Plate<'_>>) -> Result<Vec<u8>, NoMemory> {
    match held {
        Held::Plan(text) => Ok(text.as_bytes().to_vec(alloc)?),
        Held::Parts(front, back) => joined(alloc, front, back),
        Held::Small(plan) => Ok(plan_text(alloc, plan)?.as_bytes().to_vec(alloc)?),
        Held::Bytes(bytes) => Ok(bytes.to_vec(alloc)?),
        Held::Image | Held::Changed(_, _) => make_image(alloc, &FORM, &SAMPLES),
        _ => right_bytes(alloc, plate),
    }
}

fn joined(alloc: Global, front: &str, back: &str) -> Result<Vec<u8>, NoMemory> {
    let mut bytes = front.as_bytes().to_vec(alloc)?;
    bytes.extend_from_slice(back.as_bytes())?;
    Ok(bytes)
}

/// Returns the bytes of a plate, or none.
fn right_bytes(alloc: Global, plate: Option<Plate<'_>>) -> Result<Vec<u8>, NoMemory> {
    match plate {
        Some(plate) => plate_of(alloc, plate.sides, plate.rows),
        None => Ok(Vec::new(alloc)),
    }
}

/// Returns what a list says of a path.
fn find<'a>(files: &[File<'a>], path: &str) -> Option<Held<'a>> {
    match files.iter().find(|file| file.0 == path) {
        Some(file) => Some(file.1),
        None => None,
    }
}

impl<'a> Desk<'a> {
    /// Returns a desk that was asked for nothing yet.
    pub fn new(
        alloc: Global,
        files: &'a [File<'a>],
        plates: &'a [Plate<'a>],
        wrong: &'a [File<'a>],
        failing: Option<u64>,
    ) -> Desk<'a> {
        Desk {
            alloc,
            files,
            plates,
            wrong,
            failing,
            loads: 0,
            faults: 0,
            longs: 0,
        }
    }

    /// Returns the plate at a path, or none.
    fn right(&self, path: &str) -> Option<Plate<'a>> {
        match self.plates.iter().find(|plate| plate.path == path) {
            Some(plate) => Some(*plate),
            None => None,
        }
    }

    /// Returns what is at a path.
    fn held(&self, path: &str) -> Held<'a> {
        match find(self.wrong, path).or(find(self.files, path)) {
            Some(held) => held,
            None if self.right(path).is_some() => Held::Right,
            None => Held::Missing,
        }
    }
}

impl<'a> Shelf for Desk<'a> {
    ghost held = { λ _. None };

    ghost missed = { λ _. None };

    ghost faults = { λ s. s.faults };

    ghost longs = { λ s. s.longs };

    fn load(&mut self, path: &str, limit: u64) -> Result<Vec<u8>, LoadFault> {
        let fails = self.failing == Some(self.loads);
        self.loads = raised(self.loads);
        let held = self.held(path);
        if fails || matches!(held, Held::Missing) {
            self.faults = raised(self.faults);
            return Err(LoadFault::Failed);
        }
        let Ok(bytes) = bytes_of(self.alloc, held, self.right(path)) else {
            return Err(LoadFault::Memory);
        };
        if matches!(held, Held::TooLong) || bytes.len() as u64 > limit {
            self.longs = raised(self.longs);
            return Err(LoadFault::TooLong { limit });
        }
        Ok(bytes)
    }
}
