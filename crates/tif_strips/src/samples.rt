// The samples of a strip, in order.
ghost use Rattle.std.specs.Prelude.{◌≡◌, ◌≢◌, ◌+◌, ◌*◌, ◌/◌, ◌≤◌, ◌↔◌, IfSome, IsSome, IsTrue, length, take, drop};
ghost use Rattle.tif_strips.specs.Marks.{HasMarks, IsMark};
ghost use Rattle.tif_strips.specs.Strips.{samples_in};

use crate::marking::{mark_packed, unmark};
use crate::shape::MARK_ROWS;
use tif_packbits::{Unpacker, WholePackets};

/// The samples of a strip still to come. Packed samples are expanded on demand.
#[derive(Drop)]
pub(crate) enum Samples<'a> {
    Plain(&'a [u8]),
    Packed(PackedSamples<'a>),
}

/// Packed samples. Those that are skipped are only counted until samples behind them are read, so nothing of
/// a strip is gone over behind the last sample that is wanted.
#[derive(Drop)]
pub(crate) struct PackedSamples<'a> {
    unpacker: Unpacker<'a>,
    /// How many of the unpacker's samples were skipped.
    skipped: usize,
}

impl<'a> Samples<'a> {
    ghost use Rattle.tif_strips.specs.Planes.{ahead_of};

    /// Starts at the first sample in these bytes.
    pub(crate) fn new(stored: &'a [u8], packed: bool) -> Samples<'a>
        ensures { ahead_of result ≡ samples_in packed stored.now }
    {
        if packed {
            Samples::Packed(PackedSamples {
                unpacker: Unpacker::new(stored),
                skipped: 0,
            })
        } else {
            Samples::Plain(stored)
        }
    }

    /// Starts at row `above` of a strip whose rows are `row` bytes long: from the mark of the last marked row
    /// above it, if that is not 0, or else from the first sample.
    pub(crate) fn of_row(
        stored: &'a [u8],
        packed: bool,
        mark: usize,
        row: usize,
        above: u32,
    ) -> Samples<'a>
        requires mark { IsMark stored.now (above / 64 * (64 * row)) mark }
        requires packed { mark ≢ 0 → IsTrue packed }
        requires short { (row ≤ 262140) × (above ≤ 65535) }
        requires enough { above * row ≤ length (samples_in packed stored.now) }
        ensures { ahead_of result ≡ drop (above * row) (samples_in packed stored.now) }
    {
        if mark == 0 {
            let mut samples = Samples::new(stored, packed);
            samples.skip(above as usize * row);
            return samples;
        }
        let mut samples = Samples::new(&stored[mark..], packed);
        samples.skip((above % MARK_ROWS) as usize * row);
        samples
    }

    /// Fills `into` with the next samples.
    pub(crate) fn fill(&mut self, into: &mut [u8])
        requires { length into.old ≤ length (ahead_of self.old) }
        ensures given { into.new ≡ take (length into.old) (ahead_of self.old) }
        ensures left { ahead_of self.new ≡ drop (length into.old) (ahead_of self.old) }
    {
        match self {
            Samples::Plain(stored) => {
                let (front, rest) = stored.split_at(into.len());
                into.copy_from_slice(front);
                *stored = rest;
            }
            Samples::Packed(samples) => samples.fill(into),
        }
    }

    /// Reads the samples of the next row from byte `from` on, as many as `into` holds. The row is `row` bytes
    /// long.
    pub(crate) fn part(&mut self, row: usize, from: usize, into: &mut [u8])
        requires within { from + length into.old ≤ row }
        requires enough { row ≤ length (ahead_of self.old) }
        ensures given { into.new ≡ take (length into.old) (drop from (ahead_of self.old)) }
        ensures left { ahead_of self.new ≡ drop row (ahead_of self.old) }
    {
        self.skip(from);
        self.fill(into);
        self.skip(row - from - into.len());
    }

    /// The same, and returns the packets of the row, if it is read whole and they are known.
    pub(crate) fn read(
        &mut self,
        row: usize,
        from: usize,
        into: &mut [u8],
    ) -> Option<WholePackets<'a>>
        requires within { from + length into.old ≤ row }
        requires enough { row ≤ length (ahead_of self.old) }
        ensures given { into.new ≡ take (length into.old) (drop from (ahead_of self.old)) }
        ensures left { ahead_of self.new ≡ drop row (ahead_of self.old) }
        ensures known { IfSome result (λ known. known ≡ take row (ahead_of self.old)) }
    {
        if from != 0 || into.len() != row {
            self.part(row, from, into);
            return None;
        }
        match self {
            Samples::Plain(_) => {
                self.fill(into);
                None
            }
            Samples::Packed(samples) => samples.fill_whole(into),
        }
    }

    /// Returns true only if the next samples are those of a known row. A row that is not needed may be unknown.
    pub(crate) fn has_next(&self, known: &Option<WholePackets<'_>>, is_needed: bool) -> bool
        ensures next { IsTrue result → IfSome known.now (λ row. take (length row) (ahead_of self.now) ≡ row) }
        ensures known { IsTrue result → IsTrue is_needed → IsSome known.now }
    {
        match known {
            None => !is_needed,
            Some(row) => self.has_row(row),
        }
    }

    // Returns true only if the next samples are those of a known row.
    fn has_row(&self, known: &WholePackets<'_>) -> bool
        ensures { IsTrue result → take (length known.now) (ahead_of self.now) ≡ known.now }
    {
        match self {
            Samples::Plain(_) => false,
            Samples::Packed(samples) => samples.has_next(known),
        }
    }

    /// Skips the next row, which is `row` bytes long, at once if it equals the known one.
    pub(crate) fn pass(&mut self, row: usize, known: &Option<WholePackets<'_>>)
        requires enough { row ≤ length (ahead_of self.old) }
        requires long { IfSome known.now (λ known. length known ≡ row) }
        ensures { ahead_of self.new ≡ drop row (ahead_of self.old) }
    {
        match known {
            None => self.skip(row),
            Some(known) => self.pass_row(row, known),
        }
    }

    // The same, with a row that is known.
    fn pass_row(&mut self, row: usize, known: &WholePackets<'_>)
        requires enough { row ≤ length (ahead_of self.old) }
        requires long { length known.now ≡ row }
        ensures { ahead_of self.new ≡ drop row (ahead_of self.old) }
    {
        match self {
            Samples::Plain(_) => self.skip(row),
            Samples::Packed(samples) => samples.pass_row(row, known),
        }
    }

    /// Skips the next `n` bytes of samples.
    pub(crate) fn skip(&mut self, n: usize)
        requires { n ≤ length (ahead_of self.old) }
        ensures { ahead_of self.new ≡ drop n (ahead_of self.old) }
    {
        match self {
            Samples::Plain(stored) => *stored = &stored[n..],
            Samples::Packed(samples) => samples.skip(n),
        }
    }
}

impl<'a> PackedSamples<'a> {
    ghost use Rattle.tif_strips.specs.Planes.{packed_ahead};

    // Fills `into` with the next samples.
    fn fill(&mut self, into: &mut [u8])
        requires { length into.old ≤ length (packed_ahead self.old) }
        ensures given { into.new ≡ take (length into.old) (packed_ahead self.old) }
        ensures left { packed_ahead self.new ≡ drop (length into.old) (packed_ahead self.old) }
    {
        if into.is_empty() {
            return;
        }
        self.settle();
        let Ok(()) = self.unpacker.fill(into) else {
            unreachable!()
        };
    }

    // Goes over the samples that were skipped.
    fn settle(&mut self)
        requires { self.old.skipped ≤ length self.old.unpacker }
        ensures ahead { self.new.unpacker ≡ packed_ahead self.old }
        ensures none { self.new.skipped ≡ 0 }
    {
        pass(&mut self.unpacker, self.skipped);
        self.skipped = 0;
    }

    // Fills `into` with the next samples, and returns the packets that hold them, if these are whole.
    fn fill_whole(&mut self, into: &mut [u8]) -> Option<WholePackets<'a>>
        requires { length into.old ≤ length (packed_ahead self.old) }
        ensures given { into.new ≡ take (length into.old) (packed_ahead self.old) }
        ensures left { packed_ahead self.new ≡ drop (length into.old) (packed_ahead self.old) }
        ensures known { IfSome result (λ known. known ≡ into.new) }
    {
        if into.is_empty() {
            return None;
        }
        self.settle();
        self.unpacker.fill_whole(into)
    }

    // Returns true only if the next samples are those of a known row.
    fn has_next(&self, known: &WholePackets<'_>) -> bool
        ensures { IsTrue result → take (length known.now) (packed_ahead self.now) ≡ known.now }
    {
        if self.skipped != 0 {
            return false;
        }
        self.unpacker.has_next(known)
    }

    // Skips the next row, at once if it equals the known one.
    fn pass_row(&mut self, row: usize, known: &WholePackets<'_>)
        requires enough { row ≤ length (packed_ahead self.old) }
        requires long { length known.now ≡ row }
        ensures { packed_ahead self.new ≡ drop row (packed_ahead self.old) }
    {
        if self.skipped != 0 {
            self.skip(row);
            return;
        }
        if !self.unpacker.pass_whole(known) {
            self.skip(row);
        }
    }

    // Skips the next `n` samples. The two counts never wrap in a file: if they did, the samples would be gone
    // over at once.
    fn skip(&mut self, n: usize)
        requires { n ≤ length (packed_ahead self.old) }
        ensures { packed_ahead self.new ≡ drop n (packed_ahead self.old) }
    {
        match self.skipped.checked_add(n) {
            Some(sum) => self.skipped = sum,
            None => pass(&mut self.unpacker, n),
        }
    }
}

// Goes over the next `n` samples.
fn pass(unpacker: &mut Unpacker<'_>, n: usize)
    requires { n ≤ length unpacker.old }
    ensures { unpacker.new ≡ drop n unpacker.old }
{
    let Ok(()) = unpacker.skip(n as u64) else {
        unreachable!()
    };
}

/// Returns whether these bytes hold at least `n` bytes of samples. If so, sets the marks of the samples each
/// `step` bytes.
pub(crate) fn reach(stored: &[u8], packed: bool, n: usize, step: usize, marks: &mut [u32]) -> bool
    ensures enough { IsTrue result ↔ (n ≤ length (samples_in packed stored.now)) }
    ensures marks { IsTrue result → HasMarks stored.now step marks.new }
{
    if packed {
        return mark_packed(stored, n, step, marks);
    }
    unmark(marks);
    n <= stored.len()
}
