//! A block's bytes, put in their place.

ghost use Rattle.std.specs.Prelude.{◌≡◌, ◌≤◌, ◌+◌, ◌++◌, length, take, drop, vec_capacity};
ghost use Rattle.block_assembler.specs.Inner.Kept.{written};

/// Writes `from` from place `start` on. What the buffer has there already is overwritten, the rest is appended, and what
/// it lacks before `start` becomes 0. The buffer has room for all of this, so no memory is asked for.
pub fn put(into: &mut Vec<u8>, start: usize, from: &[u8])
    requires { start + length from.now ≤ vec_capacity into.old }
    ensures bytes { into.new.items ≡ written start from.now into.old.items }
    ensures room { vec_capacity into.old ≤ vec_capacity into.new }
{
    if start + from.len() <= into.len() {
        overwrite(into, start, from);
    } else {
        into.resize(start, 0).unwrap();
        into.extend_from_slice(from).unwrap();
    }
}

/// Writes `from` over the bytes of `into` that begin at `start`.
fn overwrite(into: &mut [u8], start: usize, from: &[u8])
    requires { start + length from.now ≤ length into.old }
    ensures { into.new
        ≡ take start into.old ++ from.now ++ drop (start + length from.now) into.old }
{
    into[start..start + from.len()].copy_from_slice(from);
}
