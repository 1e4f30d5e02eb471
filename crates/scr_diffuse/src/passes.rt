// The passes over a row's numbers: adding the errors from the row above, adding those from the left, and
// turning numbers into errors.
ghost use Rattle.std.specs.Prelude.{◌≡◌, ℕ, ◌+◌, ◌-◌, ◌<◌, ◌≤◌, ◌≤ℤ◌, ◌+ℤ◌, ◌-ℤ◌, ◌*ℤ◌, length, pos};
ghost use Rattle.std.specs.Prelude.{FitsSigned};
ghost use Rattle.std.specs.Int.{w16};
ghost use Rattle.scr_diffuse.specs.Diffusion.{error_of, IsError};
ghost use Rattle.scr_diffuse.specs.Passes.{AreWords, IsNumber, IsSum, number_at, sum_above, floor_16, v_from};
ghost use Rattle.scr_diffuse.specs.Passes.{weighted};

/// The ink value of a dot, which is subtracted from the number v of a pixel that prints.
pub(crate) const DOT: i16 = 255;

/// The least number v that prints.
pub(crate) const MIDDLE: i16 = 128;

/// Replaces the errors of the row above, which have a margin of one place, by the partial sums of a row:
/// sixteen times each value plus the weighted errors above it. The sums are independent, so many are computed
/// at a time.
pub(crate) fn add_above(values: &[u8], errors: &mut [i16])
    requires room { length errors.old ≡ length values.now + 2 }
    requires errors { (k : ℕ) → IsError (number_at errors.old k) }
    ensures sums { (x : ℕ) → x < length values.now →
        number_at errors.new x ≡ sum_above values.now errors.old x }
    ensures rest { (k : ℕ) → length values.now ≤ k → number_at errors.new k ≡ number_at errors.old k }
{
    for x in 0..values.len() {
        errors[x] = sum_of(values[x], errors[x + 2], errors[x + 1], errors[x]);
    }
}

/// Returns the partial sum of a pixel, from its value and the errors above it.
fn sum_of(value: u8, above_right: i16, above: i16, above_left: i16) -> i16
    requires right { IsError above_right }
    requires here { IsError above }
    requires left { IsError above_left }
    ensures { result ≡ weighted value above_right above above_left }
{
    16 * i16::from(value) + 3 * above_right + 5 * above + above_left
}

/// Replaces the partial sums of a row by its numbers v, from left to right. Each sum depends on the one
/// before it.
pub(crate) fn add_left(sums: &mut [i16])
    ensures numbers { (x : ℕ) → x < length sums.old → number_at sums.new x ≡ v_from sums.old sums.new x }
    ensures range { AreWords sums.new }
{
    let mut whole = 0;
    for sum in sums.iter_mut() {
        whole = sum_after(i32::from(*sum), whole);
        *sum = sixteenth(whole) as i16;
    }
}

/// Returns the whole sum of a pixel, from its partial sum and the whole sum of the pixel before it. The chain
/// of dependent operations is kept short: the dot is subtracted while the sixteenth is multiplied.
fn sum_after(sum: i32, before: i32) -> i32
    requires word { FitsSigned w16 sum }
    requires before { IsSum before }
    ensures sum { result ≡ (sum +ℤ (pos 7 *ℤ error_of (floor_16 before))) }
    ensures bounds { IsSum result }
{
    less_dot(sum, before) + 7 * sixteenth(before)
}

/// Returns the partial sum of a pixel, less seven times the dot of the pixel before it where that one prints.
fn less_dot(sum: i32, before: i32) -> i32
    requires { FitsSigned w16 sum }
    ensures dot { (result +ℤ (pos 7 *ℤ floor_16 before)) ≡ (sum +ℤ (pos 7 *ℤ error_of (floor_16 before))) }
    ensures low { (sum -ℤ pos 1785) ≤ℤ result }
    ensures high { result ≤ℤ sum }
{
    if before >= 16 * MIDDLE as i32 {
        sum - 7 * DOT as i32
    } else {
        sum
    }
}

/// Returns the number v of a pixel: a sixteenth of its whole sum, rounded down.
fn sixteenth(whole: i32) -> i32
    requires { IsSum whole }
    ensures number { result ≡ floor_16 whole }
    ensures bounds { IsNumber result }
{
    whole >> 4
}

/// Replaces the numbers v of a row, which two further places follow, by its errors with a margin of one
/// place.
pub(crate) fn keep_errors(numbers: &mut [i16])
    requires { 2 ≤ length numbers.old }
    ensures margin { number_at numbers.new 0 ≡ pos 0 }
    ensures errors { (x : ℕ) → x + 2 < length numbers.old →
        number_at numbers.new (x + 1) ≡ error_of (number_at numbers.old x) }
    ensures last { number_at numbers.new (length numbers.old - 1)
        ≡ error_of (number_at numbers.old (length numbers.old - 1)) }
{
    let end = numbers.len() - 2;
    numbers.copy_within(0..end, 1);
    numbers[0] = 0;
    for number in numbers.iter_mut() {
        *number = error_from(*number);
    }
}

/// Returns the error of a pixel whose number is v. Both arms give a value, so that no branch is needed.
fn error_from(v: i16) -> i16
    ensures { result ≡ error_of v }
{
    if v >= MIDDLE { v - DOT } else { v }
}
