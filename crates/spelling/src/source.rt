// The input of a program.
ghost use Rattle.std.specs.Prelude.{◌≡◌, ◌≤◌, take, IfOk, IfSome, vec_len};
ghost use Rattle.std.specs.Io.Take.{take_inner, take_limit};

use std::alloc::Global;
use std::io;
use std::io::{Read, Take};

// How many bytes are read; what comes after them counts as absent.
pub const INPUT_LIMIT: u64 = 40_960;

// The source as far as the limit: nothing behind it is read.
fn limited<R: Read>(source: R) -> Take<R>
    ensures limit { take_limit result ≡ INPUT_LIMIT }
    ensures inner { take_inner result ≡ source }
{
    source.take(INPUT_LIMIT)
}

// What the source has, as far as the limit.
pub fn input<R: Read + Drop>(heap: Global, source: R) -> io::Result<Vec<u8>>
    ensures few { IfOk result (λ bytes. vec_len bytes ≤ INPUT_LIMIT) }
    ensures first { IfOk result (λ bytes. IfSome (R.remaining source) (λ known. bytes.items ≡ take INPUT_LIMIT known)) }
{
    let mut bytes = Vec::new(heap);
    limited(source).read_to_end(&mut bytes)?;
    // (`read_to_end` promises no length for a source whose bytes are not known.)
    bytes.truncate(INPUT_LIMIT as usize);
    Ok(bytes)
}
