ghost use Rattle.std.specs.Prelude.{◌≡◌, ◌==◌, ℕ, ◌+◌, ◌<◌, ◌≤◌, ◌∷◌, length, take, drop, position};
ghost use Rattle.script_text.specs.TextLines.{ends_in, line_of, pieces};

// Whether the bytes end in this one.
fn ends_in(bytes: &[u8], byte: u8) -> bool
    ensures { result ≡ ends_in byte bytes.now }
{
    !bytes.is_empty() && bytes[bytes.len() - 1] == byte
}

// A line without what ends it.
pub fn line_of(piece: &[u8]) -> &[u8]
    ensures { result.now ≡ line_of piece.now }
{
    if !ends_in(piece, b'\n') {
        return piece;
    }
    let line = &piece[..piece.len() - 1];
    if ends_in(line, b'\r') {
        &line[..line.len() - 1]
    } else {
        line
    }
}

// Where the first line feed stands.
fn line_feed(text: &[u8]) -> Option<usize>
    ensures { result ≡ position (λ (b : ℕ). b == 10) text.now }
{
    text.iter().position(|b| *b == b'\n')
}

// How many bytes the first line of a text has, its line feed among them.
fn first_length(text: &[u8]) -> usize
    requires { 0 < length text.now }
    ensures within { result ≤ length text.now }
    ensures some { 0 < result }
    ensures pieces { pieces text.now ≡ take result text.now ∷ pieces (drop result text.now) }
{
    match line_feed(text) {
        Some(at) => at + 1,
        None => text.len(),
    }
}

// The first line of a text that isn't empty, with its line feed, and the text behind it.
pub fn cut_line(text: &[u8]) -> (&[u8], &[u8])
    requires { 0 < length text.now }
    ensures pieces { pieces text.now ≡ result.0.now ∷ pieces result.1.now }
    ensures some { 0 < length result.0.now }
    ensures whole { length result.0.now + length result.1.now ≡ length text.now }
{
    let end = first_length(text);
    (&text[..end], &text[end..])
}
