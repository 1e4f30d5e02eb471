// A frame of a band, made in its buffer.
ghost use Rattle.std.specs.Prelude.{◌≡◌, ◌≤◌, IfOk, false, length, true};
ghost use Rattle.tif_packbits.specs.Frame.{frame_of, frame_size};
ghost use Rattle.press_feed.specs.Band.{AreFresh, IsFrameAt, frame_bytes};

use crate::row_maker::RowMaker;
use pr_base::NoMemory;
use std::alloc::Global;
use std::marker::Model;
use tif_packbits::frame_row;

/// The buffer of a frame. Contracts see the bytes, and whether they are those of a frame.
#[derive(Drop)]
pub(crate) struct BandFrame {
    bytes: Vec<u8>,
    made: bool,
}

impl Model for BandFrame {
    ghost use Rattle.press_feed.specs.Band.{FrameData};

    ghost Value = { FrameData };

    ghost view = { λ f. record { bytes = f.bytes.items; made = f.made } };
}

impl BandFrame {
    /// Returns a buffer of `len` bytes, with no frame in it.
    fn new(alloc: Global, len: usize) -> Result<BandFrame, NoMemory>
        ensures len { IfOk result (λ frame. length frame.bytes ≡ len) }
        ensures none { IfOk result (λ frame. frame.made ≡ false) }
    {
        Ok(BandFrame {
            bytes: vec![in alloc; 0; len]?,
            made: false,
        })
    }

    /// Makes frame `n`, if the job has it and rows of its plate are requested.
    pub(crate) fn make(&mut self, n: u64, maker: &mut RowMaker<'_>)
        requires { length self.old.bytes ≡ frame_bytes maker.old }
        ensures frame { IsFrameAt maker.old n self.new }
        ensures len { length self.new.bytes ≡ length self.old.bytes }
        ensures maker { maker.new ≡ maker.old }
    {
        self.made = maker.is_wanted(n);
        if !self.made {
            return;
        }
        maker.make(n, &mut self.bytes);
    }

    /// Keeps the buffer, and no frame in it.
    pub(crate) fn forget(&mut self)
        ensures { self.new ≡ record self.old { made = false } }
    {
        self.made = false;
    }

    /// Packs a row of a plate.
    pub(crate) fn pack(&mut self, row: &[u8])
        requires row { length row.now ≤ 8192 }
        requires len { length self.old.bytes ≡ frame_size (length row.now) }
        ensures frame { self.new ≡ record { bytes = frame_of row.now; made = true } }
        ensures len { length self.new.bytes ≡ length self.old.bytes }
    {
        frame_row(row, &mut self.bytes);
        self.made = true;
    }

    /// Whether a frame was made.
    pub(crate) fn is_made(&self) -> bool
        ensures { result ≡ self.now.made }
    {
        self.made
    }

    /// Lends the bytes.
    pub(crate) fn bytes(&self) -> &[u8]
        ensures { result.now ≡ self.now.bytes }
    {
        &self.bytes
    }
}

/// Returns `count` buffers of `len` bytes each.
pub(crate) fn band_frames(
    alloc: Global,
    count: usize,
    len: usize,
) -> Result<Vec<BandFrame>, NoMemory>
    ensures { IfOk result (λ frames. AreFresh count len frames.items) }
{
    let mut frames = Vec::with_capacity(alloc, count)?;
    for _frame in 0..count {
        frames.push(BandFrame::new(alloc, len)?)?;
    }
    Ok(frames)
}
