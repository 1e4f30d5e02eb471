// Painting over a row of one ink.
ghost use Rattle.std.specs.Prelude.{◌≡◌, ℕ, ◌+◌, ◌<◌, ◌≤◌, ◌==◌, if◌then◌else◌, length, replicate};
ghost use Rattle.std.specs.Prelude.{slice_index};
ghost use Rattle.page_paint.specs.Rows.{IsLaid, LaysSpan};

/// How a layer is painted.
#[derive(Clone, Copy, PartialEq, Eq)]
pub enum Painting {
    /// Every pixel replaces the ink below.
    Whole,
    /// Admitted pixels replace the ink below.
    Knockout,
    /// Admitted pixels replace the ink below where their own value is not 0.
    Overprint,
    /// Nothing is painted.
    Nothing,
}

impl Painting {
    ghost use Rattle.std.specs.Prelude.{◌≡◌};
    ghost use Rattle.page_paint.specs.Rows.{painted_as};

    /// Returns how a layer is painted in an ink that is painted or not.
    pub fn of(self, is_painted: bool) -> Painting
        ensures { result ≡ painted_as is_painted self }
    {
        if is_painted { self } else { Painting::Nothing }
    }
}

/// Paints over a row from column `from` on. A pixel is admitted where `admitted` is not 0.
pub fn lay_span(painting: Painting, from: usize, paint: &[u8], admitted: &[u8], into: &mut [u8])
    requires paint { length paint.now ≡ length admitted.now }
    requires within { from + length admitted.now ≤ length into.old }
    ensures { LaysSpan painting from paint.now admitted.now into.old into.new }
{
    let to = from + admitted.len();
    match painting {
        Painting::Whole => into[from..to].copy_from_slice(paint),
        Painting::Knockout => knock_out(paint, admitted, &mut into[from..to]),
        Painting::Overprint => overprint(paint, admitted, &mut into[from..to]),
        Painting::Nothing => (),
    }
}

/// Paints one ink value over a row from column `from` on, where it is admitted.
pub fn lay_ink(painting: Painting, from: usize, ink: u8, admitted: &[u8], into: &mut [u8])
    requires within { from + length admitted.now ≤ length into.old }
    ensures { LaysSpan painting from (replicate (length admitted.now) ink) admitted.now into.old into.new }
{
    match painting {
        Painting::Whole => into[from..from + admitted.len()].fill(ink),
        Painting::Knockout => knock_out_ink(from, ink, admitted, into),
        Painting::Overprint => overprint_ink(from, ink, admitted, into),
        Painting::Nothing => (),
    }
}

fn knock_out_ink(from: usize, ink: u8, admitted: &[u8], into: &mut [u8])
    requires within { from + length admitted.now ≤ length into.old }
    ensures { LaysSpan Painting.Knockout from (replicate (length admitted.now) ink) admitted.now
        into.old into.new }
{
    spread(ink, admitted, &mut into[from..from + admitted.len()]);
}

// An overprinted value of 0 changes nothing.
fn overprint_ink(from: usize, ink: u8, admitted: &[u8], into: &mut [u8])
    requires within { from + length admitted.now ≤ length into.old }
    ensures { LaysSpan Painting.Overprint from (replicate (length admitted.now) ink) admitted.now
        into.old into.new }
{
    if ink == 0 {
        return;
    }
    knock_out_ink(from, ink, admitted, into);
}

// The loops multiply by 0 or 1 instead of branching, so that they vectorize and have no branch to mispredict.
fn knock_out(paint: &[u8], admitted: &[u8], into: &mut [u8])
    requires paint { length paint.now ≡ length into.old }
    requires admitted { length admitted.now ≡ length into.old }
    ensures { IsLaid Painting.Knockout paint.now admitted.now into.old (length into.old) into.new }
{
    for x in 0..into.len() {
        let shows = u8::from(admitted[x] != 0);
        into[x] = paint[x] * shows + into[x] * (1 - shows);
    }
}

fn overprint(paint: &[u8], admitted: &[u8], into: &mut [u8])
    requires paint { length paint.now ≡ length into.old }
    requires admitted { length admitted.now ≡ length into.old }
    ensures { IsLaid Painting.Overprint paint.now admitted.now into.old (length into.old) into.new }
{
    for x in 0..into.len() {
        let shows = u8::from(admitted[x] != 0) * u8::from(paint[x] != 0);
        into[x] = paint[x] * shows + into[x] * (1 - shows);
    }
}

fn spread(ink: u8, admitted: &[u8], into: &mut [u8])
    requires { length admitted.now ≡ length into.old }
    ensures { (x : ℕ) → x < length into.old
        → slice_index into.new x ≡ (if slice_index admitted.now x == 0 then slice_index into.old x else ink) }
{
    for x in 0..into.len() {
        let shows = u8::from(admitted[x] != 0);
        into[x] = ink * shows + into[x] * (1 - shows);
    }
}
