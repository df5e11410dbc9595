ghost use Rattle.std.specs.Prelude.{◌≡◌, ◌≤◌, take, IfOk, IfSome, vec_len};

use std::alloc::Global;
use std::io;
use std::io::Read;

// The first bytes that a source has to give, at most so many of them.
pub fn read_at_most<R: Read>(heap: Global, source: R, most: usize) -> io::Result<Vec<u8>>
where
    R: Drop,
    ensures length { IfOk result (λ bytes. vec_len bytes ≤ most) }
    ensures bytes { IfSome (R.remaining source) (λ rest. IfOk result (λ bytes. bytes.items ≡ take most rest)) }
{
    let mut bytes = Vec::new(heap);
    source.take(most as u64).read_to_end(&mut bytes)?;
    bytes.truncate(most);
    Ok(bytes)
}
