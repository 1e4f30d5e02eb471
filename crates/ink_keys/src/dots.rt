// Counting the 1 pixels of a row between two columns, in words of eight bytes.
ghost use Rattle.std.specs.Prelude.{◌≡◌, ◌<◌, ◌≤◌, ◌+◌, ◌-◌, ◌*◌, ◌/◌, length, sum_by};
ghost use Rattle.ink_keys.specs.Keys.{dots_between};

/// The pixels of a word.
const PIXELS: usize = 64;

/// Returns the bytes of the buffer that a row of `width` pixels is counted in: one word more than the row has
/// whole words, so that each of its columns, and the column after the last, is within a word.
pub(crate) fn room_for(width: u32) -> usize
    ensures { result ≡ 8 * (width / 64 + 1) }
{
    8 * (width as usize / PIXELS + 1)
}

/// Counts the pixels that are 1 from column `from` to before column `to`. Later pixels are never counted.
pub(crate) fn dots_in(row: &[u8], from: usize, to: usize) -> u64
    requires order { from ≤ to }
    requires within { to / 64 < length row.now / 8 }
    requires most { to ≤ 65535 }
    ensures dots { result ≡ dots_between row.now from to }
    ensures most { result ≤ to - from }
{
    let (words, _) = row.as_chunks::<8>();
    let first = from / PIXELS;
    let last = to / PIXELS;
    ones(&words[first..last]) + front_ones(&words[last], to % PIXELS)
        - front_ones(&words[first], from % PIXELS)
}

/// Counts the pixels of words that are 1.
fn ones(words: &[[u8; 8]]) -> u64
    requires { length words.now ≤ 1024 }
    ensures ones { result ≡ sum_by (λ word. dots_between word 0 64) words.now }
    ensures most { result ≤ 64 * length words.now }
{
    let mut ones = 0;
    for word in words {
        ones += ones_of(word);
    }
    ones
}

/// Counts the pixels of a word that are 1.
fn ones_of(word: &[u8; 8]) -> u64
    ensures ones { result ≡ dots_between word.now 0 64 }
    ensures most { result ≤ 64 }
{
    u64::from_be_bytes(*word).count_ones() as u64
}

/// Counts the pixels that are 1 among the first `count` of a word. The others are shifted out in two steps,
/// since a shift by all 64 bits at once is not allowed.
fn front_ones(word: &[u8; 8], count: usize) -> u64
    requires { count < 64 }
    ensures ones { result ≡ dots_between word.now 0 count }
    ensures most { result ≤ 64 }
{
    (u64::from_be_bytes(*word) >> 1 >> (63 - count)).count_ones() as u64
}
