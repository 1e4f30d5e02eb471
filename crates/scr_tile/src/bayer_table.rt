// The thresholds of ordered dither (Bayer 1973).
ghost use Rattle.std.specs.Prelude.{◌≡◌, ℕ, ◌<◌};
ghost use Rattle.scr_tile.specs.Tile.{IsBayerSide, number_at, threshold_at};

use crate::Tile;

/// The largest side for which a tile is built, in pixels.
const SIDE: usize = 16;

/// The thresholds of side 16. The tile of each smaller side N is the top left corner of this table: the top
/// left quarter of an index matrix is the matrix of half its side times four, and the threshold of an index
/// of side n is index * 255 / n^2, rounded down.
const THRESHOLDS: [[u8; SIDE]; SIDE] = [
    [
        0, 127, 31, 159, 7, 135, 39, 167, 1, 129, 33, 161, 9, 137, 41, 169,
    ],
    [
        191, 63, 223, 95, 199, 71, 231, 103, 193, 65, 225, 97, 201, 73, 233, 105,
    ],
    [
        47, 175, 15, 143, 55, 183, 23, 151, 49, 177, 17, 145, 57, 185, 25, 153,
    ],
    [
        239, 111, 207, 79, 247, 119, 215, 87, 241, 113, 209, 81, 249, 121, 217, 89,
    ],
    [
        11, 139, 43, 171, 3, 131, 35, 163, 13, 141, 45, 173, 5, 133, 37, 165,
    ],
    [
        203, 75, 235, 107, 195, 67, 227, 99, 205, 77, 237, 109, 197, 69, 229, 101,
    ],
    [
        59, 187, 27, 155, 51, 179, 19, 147, 61, 189, 29, 157, 53, 181, 21, 149,
    ],
    [
        251, 123, 219, 91, 243, 115, 211, 83, 253, 125, 221, 93, 245, 117, 213, 85,
    ],
    [
        2, 130, 34, 162, 10, 138, 42, 170, 0, 128, 32, 160, 8, 136, 40, 168,
    ],
    [
        194, 66, 226, 98, 202, 74, 234, 106, 192, 64, 224, 96, 200, 72, 232, 104,
    ],
    [
        50, 178, 18, 146, 58, 186, 26, 154, 48, 176, 16, 144, 56, 184, 24, 152,
    ],
    [
        242, 114, 210, 82, 250, 122, 218, 90, 240, 112, 208, 80, 248, 120, 216, 88,
    ],
    [
        14, 142, 46, 174, 6, 134, 38, 166, 12, 140, 44, 172, 4, 132, 36, 164,
    ],
    [
        206, 78, 238, 110, 198, 70, 230, 102, 204, 76, 236, 108, 196, 68, 228, 100,
    ],
    [
        62, 190, 30, 158, 54, 182, 22, 150, 60, 188, 28, 156, 52, 180, 20, 148,
    ],
    [
        254, 126, 222, 94, 246, 118, 214, 86, 252, 124, 220, 92, 244, 116, 212, 84,
    ],
];

/// Returns the Bayer tile of side `N`.
pub fn bayer<const N: usize>() -> Tile<N, N>
    requires { IsBayerSide N }
    ensures { (x y : ℕ) → x < N → y < N → number_at result x y ≡ threshold_at N x y }
{
    let mut at = [[0; N]; N];
    for (y, row) in at.iter_mut().enumerate() {
        row.copy_from_slice(&THRESHOLDS[y][..N]);
    }
    Tile::of(at)
}
