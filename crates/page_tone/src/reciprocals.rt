// Division by the sum of a pixel's colours, done as a multiplication by a reciprocal.
ghost use Rattle.std.specs.Prelude.{◌≡◌, ℕ, ◌+◌, ◌*◌, ◌/◌, ◌<◌, ◌≤◌, ◌^◌};
ghost use Rattle.page_tone.specs.Limit.{share};

macro_rules! reciprocal {
    ($sum:expr) => {
        (1 << 28) / ($sum + ($sum == 0) as u32) + 1
    };
}

macro_rules! reciprocals {
    ($($first:literal)*) => {
        [$([
            reciprocal!($first),
            reciprocal!($first + 1),
            reciprocal!($first + 2),
            reciprocal!($first + 3),
            reciprocal!($first + 4),
            reciprocal!($first + 5),
            reciprocal!($first + 6),
            reciprocal!($first + 7),
        ]),*]
    };
}

/// Entry n is 2^28 / n, rounded down, plus 1, for each sum n of three inks. The macro takes the first sum of
/// each row of eight. The entry of 0 has no effect.
static RECIPROCALS: [[u32; 8]; 96] = reciprocals!(
    0 8 16 24 32 40 48 56 64 72 80 88 96 104 112 120 128 136 144 152 160 168 176 184
    192 200 208 216 224 232 240 248 256 264 272 280 288 296 304 312 320 328 336 344 352 360 368 376
    384 392 400 408 416 424 432 440 448 456 464 472 480 488 496 504 512 520 528 536 544 552 560 568
    576 584 592 600 608 616 624 632 640 648 656 664 672 680 688 696 704 712 720 728 736 744 752 760
);

/// Returns `rest` over the sum of the colours, in units of 1/2^24 and slightly too large: a colour times this
/// number, divided by 2^24 and rounded down, is the colour's share of `rest`.
pub(crate) fn share_of(rest: u32, colours: u32) -> u32
    requires colours { colours ≤ 765 }
    requires rest { rest ≤ colours }
    ensures shares { (value : ℕ) → value ≤ 255 → value ≤ colours →
        value * result / 2 ^ 24 ≡ share value rest colours }
    ensures most { result ≤ 2 ^ 24 + 48 }
{
    rest * reciprocal(colours) / 16 + 1
}

/// Returns 2^28 over a sum of three inks, rounded down, plus 1.
fn reciprocal(colours: u32) -> u32
    requires { colours ≤ 765 }
    ensures { 0 < colours → result ≡ 2 ^ 28 / colours + 1 }
{
    RECIPROCALS.as_flattened()[colours as usize]
}
