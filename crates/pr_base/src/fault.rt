// Faults of an input file: the kind, the TIFF tag where it was found, and the file.
ghost use Rattle.std.specs.Prelude.{◌≡◌};
ghost use Rattle.pr_base.specs.Fault.{kind_number, kind_text};

use crate::PathText;
use std::fmt;
use thiserror::Error;

/// The kind of a fault. Numbers and texts are plateroom's own; the test of a single TIFF field is named
/// after that field (TIFF 6.0, Sections 8 and 16).
#[derive(Clone, Copy, Debug, PartialEq, Eq, PartialOrd, Ord, Hash)]
pub enum FaultKind {
    TooLong = 1,
    Header = 2,
    Directory = 3,
    Missing = 4,
    FieldType = 5,
    FieldCount = 6,
    FieldPlace = 7,
    Tiled = 8,
    Width = 9,
    Length = 10,
    Bits = 11,
    Compression = 12,
    Photometric = 13,
    FillOrder = 14,
    Orientation = 15,
    Samples = 16,
    RowsPerStrip = 17,
    Planar = 18,
    InkSet = 19,
    DotRange = 20,
    StripPlace = 21,
    Short = 22,
    MaskSize = 23,
    Crop = 24,
}

impl FaultKind {
    /// Returns the kind's number.
    pub fn number(self) -> u8
        ensures { result ≡ kind_number self }
    {
        self as u8
    }

    /// Returns the kind's text, as the program prints it.
    pub fn text(self) -> &'static str
        ensures { result.now ≡ kind_text self }
    {
        match self {
            FaultKind::TooLong => "too long",
            FaultKind::Header => "header",
            FaultKind::Directory => "directory",
            FaultKind::Missing => "missing",
            FaultKind::FieldType => "field type",
            FaultKind::FieldCount => "field count",
            FaultKind::FieldPlace => "field place",
            FaultKind::Tiled => "tiled",
            FaultKind::Width => "width",
            FaultKind::Length => "length",
            FaultKind::Bits => "bits",
            FaultKind::Compression => "compression",
            FaultKind::Photometric => "photometric",
            FaultKind::FillOrder => "fill order",
            FaultKind::Orientation => "orientation",
            FaultKind::Samples => "samples",
            FaultKind::RowsPerStrip => "rows per strip",
            FaultKind::Planar => "planar",
            FaultKind::InkSet => "ink set",
            FaultKind::DotRange => "dot range",
            FaultKind::StripPlace => "strip place",
            FaultKind::Short => "short",
            FaultKind::MaskSize => "mask size",
            FaultKind::Crop => "crop",
        }
    }
}

impl fmt::Display for FaultKind {
    ghost use Rattle.std.specs.Prelude.{Some};
    ghost use Rattle.pr_base.specs.Fault.{kind_text};

    ghost output = { λ kind. Some (kind_text kind) };

    fn fmt<W: fmt::Write>(&self, f: &mut fmt::Formatter<W>) -> fmt::Result {
        f.write_str(self.text())
    }
}

/// A fault of an image and the TIFF tag at which it was found. Tag 0 means the file as a whole.
#[derive(Clone, Copy, Debug, PartialEq, Eq, Hash, Error)]
#[error("tag {tag}: {kind}")]
pub struct TagFault {
    pub tag: u16,
    pub kind: FaultKind,
}

/// A fault together with its file, which is named as in the plan or on the command line.
#[derive(Debug, PartialEq, Eq, Drop, Error)]
#[error("file {file}: tag {tag}: {kind}")]
pub struct FileFault {
    pub file: PathText,
    pub tag: u16,
    pub kind: FaultKind,
}
