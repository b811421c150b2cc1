//! Replaces a byte of a vector by a number, and moves the bytes after it once.

ghost use Rattle.std.specs.Prelude.{◌≡◌, ◌<◌, ◌≤◌, ◌+◌, [], ◌++◌, true, false, length, take, drop, vec_len};
ghost use Rattle.wasm_ops.specs.Leb128.{unsigned};
ghost use Rattle.wasm_ops.specs.SinkLaws.{with_number};

use wasm_ops::{Sink, width};

/// Moves the bytes after `at` by `more`, and returns whether it did. What is in between afterwards
/// is not stated.
///
/// It does not if there is no memory, or if `more` is above 4, because a length has at most five
/// bytes. The vector is unchanged then.
fn make_room(out: &mut Vec<u8>, at: usize, more: usize) -> bool
    requires { at < vec_len out.old }
    ensures moved { result ≡ true → (take at out.new.items ≡ take at out.old.items) × (drop (at + 1 + more) out.new.items ≡ drop (at + 1) out.old.items) × (vec_len out.new ≡ vec_len out.old + more) }
    ensures refused { result ≡ false → out.new.items ≡ out.old.items ++ [] }
{
    if more > 4 {
        return false;
    }
    let end = out.len();
    let zeros = [0u8; 4];
    match out.push_bytes(&zeros[..more]) {
        Ok(()) => {
            out.copy_within(at + 1..end, at + 1 + more);
            true
        }
        Err(_) => false,
    }
}

/// Writes the encoding of a number over the bytes from `at` on.
fn overwrite(out: &mut Vec<u8>, at: usize, n: u64)
    requires { at + length (unsigned n) ≤ vec_len out.old }
    ensures { out.new.items ≡ take at out.old.items ++ (unsigned n ++ drop (at + length (unsigned n)) out.old.items) }
{
    let mut place = at;
    let mut rest = n;
    'digits: while rest >= 128 {
        out[place] = 128 + (rest % 128) as u8;
        rest /= 128;
        place += 1;
    }
    out[place] = rest as u8;
}

/// Replaces the byte at `at` by the encoding of a number, and returns whether it did.
///
/// The bytes after it move at most once, because a section can be long. After `false` the vector is
/// unchanged.
pub(crate) fn replace_byte(out: &mut Vec<u8>, at: usize, n: u64) -> bool
    requires { at < vec_len out.old }
    ensures replaced { result ≡ true → out.new.items ≡ with_number out.old.items at n }
    ensures refused { result ≡ false → out.new.items ≡ out.old.items ++ [] }
{
    let more = width(n).saturating_sub(1) as usize;
    if make_room(out, at, more) {
        overwrite(out, at, n);
        return true;
    }
    false
}
