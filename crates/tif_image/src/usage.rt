// The uses of an image, and the field values that each requires (TIFF 6.0, Sections 3, 8 and 16).
ghost use Rattle.std.specs.Prelude.{◌≡◌};
ghost use Rattle.tif_image.specs.Usage.{depth_of, photometrics_of, samples_of};

/// The use of a bilevel image.
#[derive(Clone, Copy, PartialEq, Eq)]
pub enum BilevelUse {
    /// Linework, whose marked pixels are painted. PhotometricInterpretation is 0 or 1.
    Line,
    /// A mask, whose marked pixels show a layer. PhotometricInterpretation is 0, 1 or 4.
    Mask,
}

/// The use of an image.
#[derive(Clone, Copy, PartialEq, Eq)]
pub enum Usage {
    /// A contone picture in four inks. PhotometricInterpretation is 5.
    Contone,
    Bilevel(BilevelUse),
}

impl Usage {
    /// Returns the samples per pixel.
    pub(crate) fn samples(self) -> u8
        ensures { result ≡ samples_of self }
    {
        match self {
            Usage::Contone => 4,
            Usage::Bilevel(_) => 1,
        }
    }

    /// Returns the bits per sample.
    pub(crate) fn depth(self) -> u8
        ensures { result ≡ depth_of self }
    {
        match self {
            Usage::Contone => 8,
            Usage::Bilevel(_) => 1,
        }
    }

    /// Returns the accepted values of PhotometricInterpretation.
    pub(crate) fn photometrics(self) -> &'static [u32]
        ensures { result.now ≡ photometrics_of self }
    {
        match self {
            Usage::Contone => &[5],
            Usage::Bilevel(BilevelUse::Line) => &[0, 1],
            Usage::Bilevel(BilevelUse::Mask) => &[0, 1, 4],
        }
    }
}
