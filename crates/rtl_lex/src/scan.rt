//! How far runs of bytes go.

ghost use Rattle.std.specs.Prelude.{◌≡◌, ◌≤◌, length, false};
ghost use Rattle.std.specs.List.{prefix_len};
ghost use Rattle.rtl_lex.specs.Bytes.{is_space, is_lower, is_digit, is_name, is_bit};
ghost use Rattle.rtl_lex.specs.Gaps.{gap, in_gap, note_after};

/// How many lower-case letters stand first.
pub fn letters(bytes: &[u8]) -> usize
    ensures run { result ≡ prefix_len is_lower bytes.now }
    ensures within { result ≤ length bytes.now }
{
    bytes
        .iter()
        .take_while(|b| **b >= b'a' && **b <= b'z')
        .count()
}

/// How many digits stand first.
pub fn digits(bytes: &[u8]) -> usize
    ensures run { result ≡ prefix_len is_digit bytes.now }
    ensures within { result ≤ length bytes.now }
{
    bytes
        .iter()
        .take_while(|b| **b >= b'0' && **b <= b'9')
        .count()
}

fn is_name(byte: u8) -> bool
    ensures { result ≡ is_name byte }
{
    byte > b' '
}

/// How many bytes of a name stand first: all above the blank.
pub fn name_bytes(bytes: &[u8]) -> usize
    ensures run { result ≡ prefix_len is_name bytes.now }
    ensures within { result ≤ length bytes.now }
{
    bytes.iter().take_while(|b| is_name(**b)).count()
}

fn is_bit(byte: u8) -> bool
    ensures { result ≡ is_bit byte }
{
    match byte {
        b'0' | b'1' | b'x' | b'z' | b'm' | b'-' => true,
        _ => false,
    }
}

/// How many characters of bits stand first.
pub fn bits(bytes: &[u8]) -> usize
    ensures run { result ≡ prefix_len is_bit bytes.now }
    ensures within { result ≤ length bytes.now }
{
    bytes.iter().take_while(|b| is_bit(**b)).count()
}

fn in_gap(over: bool, note: bool, byte: u8) -> bool
    ensures { result ≡ in_gap over note byte }
{
    if byte == b'\n' || byte == b'\r' {
        over
    } else {
        note || byte == b' ' || byte == b'\t' || byte == b'#'
    }
}

fn note_after(note: bool, byte: u8) -> bool
    ensures { result ≡ note_after note byte }
{
    if byte == b'\n' || byte == b'\r' {
        false
    } else {
        note || byte == b'#'
    }
}

/// How many spaces stand first.
fn spaces(bytes: &[u8]) -> usize
    ensures run { result ≡ prefix_len is_space bytes.now }
    ensures within { result ≤ length bytes.now }
{
    bytes.iter().take_while(|b| **b == b' ').count()
}

/// How many bytes of blanks and comments stand at the front; with `over` ends of lines too.
fn any_gap(bytes: &[u8], over: bool) -> usize
    ensures gap { result ≡ gap over false bytes.now }
    ensures within { result ≤ length bytes.now }
{
    let mut note = false;
    for (count, byte) in bytes.iter().enumerate() {
        if !in_gap(over, note, *byte) {
            return count;
        }
        note = note_after(note, *byte);
    }
    bytes.len()
}

/// How many bytes of blanks and comments stand at the front; with `over` ends of lines too. Most gaps are spaces alone.
pub fn gap(bytes: &[u8], over: bool) -> usize
    ensures gap { result ≡ gap over false bytes.now }
    ensures within { result ≤ length bytes.now }
{
    let count = spaces(bytes);
    count + any_gap(&bytes[count..], over)
}
