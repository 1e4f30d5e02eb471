// A number among the arguments of a command line.
ghost use Rattle.std.specs.Prelude.{◌≡◌, IfSome};
ghost use Rattle.pr_base.specs.Number.{IsWithin};
ghost use Rattle.std.specs.Char.{is_ascii_digit};
ghost use Rattle.std.specs.List.{list_all};
ghost use Rattle.plate_room.specs.Number.{IsValue, is_number as is_number_lem, number_within as number_of};

/// Returns the number that an argument spells, if it is one from `least` to `most`.
pub(crate) fn number_within(word: &str, least: u32, most: u32) -> Option<u32>
    ensures number { result ≡ number_of least most word.now }
    ensures within { IfSome result (IsWithin least most) }
{
    match value_of(word) {
        Some(number) => {
            if least <= number && number <= most {
                Some(number)
            } else {
                None
            }
        }
        None => None,
    }
}

/// Returns the value of an argument that is a number, if it fits 32 bits.
fn value_of(word: &str) -> Option<u32>
    ensures { IsValue word.now result }
{
    if !is_number(word.as_bytes()) {
        return None;
    }
    match word.parse::<u32>() {
        Ok(number) => Some(number),
        Err(_) => None,
    }
}

/// Returns whether an argument is one digit, or several digits of which the first isn't 0.
fn is_number(word: &[u8]) -> bool
    ensures { result ≡ is_number_lem word.now }
{
    match word {
        [] => false,
        [_] => are_digits(word),
        [first, _, ..] => *first != b'0' && are_digits(word),
    }
}

/// Returns whether all bytes are ASCII digits.
fn are_digits(word: &[u8]) -> bool
    ensures { result ≡ list_all is_ascii_digit word.now }
{
    word.iter().all(|byte| byte.is_ascii_digit())
}
