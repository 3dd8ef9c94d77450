//! Cases of the input: a head and the script behind it.

ghost use Rattle.std.specs.Prelude.{◌≡◌, ◌++◌, ◌<◌, ◌≤◌, length};

/// How many bytes the first line has, with its line feed.
fn line_length(text: &[u8]) -> usize
    requires { 0 < length text.now }
    ensures some { 0 < result }
    ensures within { result ≤ length text.now }
{
    for (place, byte) in text.iter().enumerate() {
        if *byte == b'\n' {
            return place + 1;
        }
    }
    text.len()
}

/// Whether a text begins with a head.
pub fn has_head(text: &[u8]) -> bool {
    text.starts_with(b"== ".as_slice())
        || text.starts_with(b"==\n".as_slice())
        || text == b"==".as_slice()
}

/// How many bytes stand before the first head behind the first line.
fn case_length(text: &[u8]) -> usize
    requires { 0 < length text.now }
    ensures some { 0 < result }
    ensures within { result ≤ length text.now }
{
    let mut length = line_length(text);
    while length < text.len() {
        let rest = &text[length..];
        if has_head(rest) {
            break;
        }
        length += line_length(rest);
    }
    length
}

/// The first case, and the text behind it.
pub fn cut_case(text: &[u8]) -> (&[u8], &[u8])
    requires { 0 < length text.now }
    ensures parts { text.now ≡ result.0.now ++ result.1.now }
    ensures some { 0 < length result.0.now }
    ensures shorter { length result.1.now < length text.now }
{
    text.split_at(case_length(text))
}

/// The head of a case without its line feed, and its script.
pub fn cut_head(case: &[u8]) -> (&[u8], &[u8])
    requires { 0 < length case.now }
{
    let (line, script) = case.split_at(line_length(case));
    match line.strip_suffix(b"\n".as_slice()) {
        Some(head) => (head, script),
        None => (line, script),
    }
}
