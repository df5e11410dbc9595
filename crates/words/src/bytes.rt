ghost use Rattle.std.specs.Prelude.{◌≡◌, ℕ, ◌<◌, ◌≤◌, true, false, length, slice_index};
ghost use Rattle.std.specs.List.{prefix_len};
ghost use Rattle.words.specs.Bytes.{separator, name_byte, begins};

use crate::kind::Kind;

// What a byte that is no separator begins.
#[derive(Clone, Copy)]
pub(crate) enum Begins {
    Name,
    Sign(Kind),
    Nothing,
}

// How many bytes at the front pass the test.
fn run_of<F: Fn(u8) -> bool>(s: &[u8], passes: F) -> usize
    requires { F.IsAlwaysCallable passes }
    ensures within { result ≤ length s.now }
    ensures passing { (k : ℕ) → k < result → F.post passes (slice_index s.now k) true }
    ensures stopped { result < length s.now → F.post passes (slice_index s.now result) false }
{
    // a chain of `take_while` and `count` makes a survey a seventh slower
    for (n, &b) in s.iter().enumerate() {
        if !passes(b) {
            return n;
        }
    }
    s.len()
}

// How many separators stand at the front.
pub(crate) fn separators(s: &[u8]) -> usize
    ensures is { result ≡ prefix_len separator s.now }
    ensures within { result ≤ length s.now }
{
    run_of(s, |b| matches!(b, b'\t' | b'\n' | b'\r' | b' '))
}

// How many bytes at the front can go on a name.
pub(crate) fn name_bytes(s: &[u8]) -> usize
    ensures is { result ≡ prefix_len name_byte s.now }
    ensures within { result ≤ length s.now }
{
    run_of(
        s,
        |b| matches!(b, b'a'..=b'z' | b'A'..=b'Z' | b'_' | b'0'..=b'9'),
    )
}

// What the byte begins.
pub(crate) fn begun_by(b: u8) -> Begins
    ensures { result ≡ begins b }
{
    match b {
        b'a'..=b'z' | b'A'..=b'Z' | b'_' => Begins::Name,
        b'{' => Begins::Sign(Kind::OpenBrace),
        b'}' => Begins::Sign(Kind::CloseBrace),
        b'(' => Begins::Sign(Kind::OpenParen),
        b')' => Begins::Sign(Kind::CloseParen),
        b',' => Begins::Sign(Kind::Comma),
        b';' => Begins::Sign(Kind::Semicolon),
        b'<' => Begins::Sign(Kind::Less),
        b'>' => Begins::Sign(Kind::Greater),
        b'.' => Begins::Sign(Kind::Dot),
        b':' => Begins::Sign(Kind::Colon),
        b'=' => Begins::Sign(Kind::Assign),
        _ => Begins::Nothing,
    }
}
