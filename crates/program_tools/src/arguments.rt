ghost use Rattle.std.specs.Prelude.{◌≡◌, ◌↔◌, IsTrue, IsSomeAnd, slice_get, string_bytes};
ghost use Rattle.std.specs.Vec.Iter.{into_iter_items};

use std::env::Args;

// Whether the first argument after the program's name is the word.
pub fn first_is(mut arguments: Args, word: &str) -> bool
    ensures { IsTrue result ↔ IsSomeAnd (slice_get (into_iter_items arguments) 1) (λ first. string_bytes first ≡ word.now) }
{
    arguments.nth(1).is_some_and(|first| first.as_str() == word)
}
