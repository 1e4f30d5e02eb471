// The forms of texts in a plan: names and file names.
ghost use Rattle.std.specs.Prelude.{◌≡◌, ◌<◌, ◌==◌, ◌+◌, nat_le, length, drop, IfSome};
ghost use Rattle.std.specs.List.{list_all, position_from};
ghost use Rattle.plan_parts.specs.Forms as spec;

/// Returns whether the text is a name: 1 to 16 letters, digits and `_`.
#[tactic(auto, unfolding(crate::specs::Forms::is_name))]
pub(crate) fn is_name(text: &str) -> bool
    ensures { result ≡ spec.is_name text.now }
{
    let bytes = text.as_bytes();
    1 <= bytes.len() && bytes.len() <= 16 && all_of_names(bytes)
}

fn all_of_names(bytes: &[u8]) -> bool
    ensures { result ≡ list_all spec.is_name_byte bytes.now }
{
    bytes.iter().all(|b| is_name_byte(*b))
}

#[tactic(auto, unfolding(crate::specs::Forms::is_name_byte))]
fn is_name_byte(b: u8) -> bool
    ensures { result ≡ spec.is_name_byte b }
{
    (b'A' <= b && b <= b'Z') || (b'a' <= b && b <= b'z') || (b'0' <= b && b <= b'9') || b == b'_'
}

/// Returns whether the text is a file name: 1 to 255 bytes without control codes, in parts that name files.
#[tactic(auto, unfolding(crate::specs::Forms::is_file_name))]
pub(crate) fn is_file_name(text: &str) -> bool
    ensures { result ≡ spec.is_file_name text.now }
{
    let bytes = text.as_bytes();
    1 <= bytes.len() && bytes.len() <= 255 && no_control(bytes) && parts_name_files(bytes)
}

fn no_control(bytes: &[u8]) -> bool
    ensures { result ≡ list_all (nat_le 32) bytes.now }
{
    bytes.iter().all(|b| *b >= 32)
}

// Returns whether no part between `/` is empty, `.` or `..`.
fn parts_name_files(text: &[u8]) -> bool
    ensures { result ≡ list_all spec.names_a_file (spec.parts text.now) }
{
    match first_slash(text) {
        None => names_a_file(text),
        Some(end) => names_a_file(&text[..end]) && parts_name_files(behind(text, end)),
    }
}

fn behind(text: &[u8], end: usize) -> &[u8]
    requires { end < length text.now }
    ensures { result.now ≡ drop (end + 1) text.now }
{
    &text[end + 1..]
}

fn first_slash(text: &[u8]) -> Option<usize>
    ensures place { result ≡ position_from (λ b. b == 47) 0 text.now }
    ensures within { IfSome result (λ i. i < length text.now) }
{
    text.iter().position(|b| *b == b'/')
}

#[tactic(auto, unfolding(crate::specs::Forms::names_a_file))]
fn names_a_file(part: &[u8]) -> bool
    ensures { result ≡ spec.names_a_file part.now }
{
    match part {
        [] => false,
        [a] => *a != b'.',
        [a, b] => *a != b'.' || *b != b'.',
        _ => true,
    }
}
