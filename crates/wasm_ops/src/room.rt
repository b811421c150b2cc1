//! A sink of fixed capacity, whose memory is reserved in advance.

ghost use Rattle.std.specs.Prelude.{◌≡◌, ◌≤◌, ◌+◌, [], ◌++◌, length, vec_len, vec_capacity, IfOk, IfErr};
ghost use Rattle.wast_base.specs.Faults.{out_of_memory};
ghost use Rattle.wasm_ops.specs.Leb128.{unsigned};
ghost use Rattle.wasm_ops.specs.Rooms as rooms;
ghost use Rattle.wasm_ops.specs.Sinks.{Writes};

use crate::leb128::{further_width, set_unsigned, unsigned_bytes};
use crate::sink::{Refusal, Sink};
use std::alloc::Global;
use std::marker::Model;
use wast_base::Error;

/// Bytes, and reserved memory for `left` more. Its model in contracts is `items` and `left`.
///
/// Use it to encode into memory of a known size: after [`Room::reserve`], no write allocates.
///
/// # Example
///
///     let mut room = Room::reserve(rt.alloc(), 134).expect(&rt, "memory");
///     assert!(rt; nested.encode(&mut room).is_ok());
///     assert!(rt; room.left() == 0);
#[derive(Debug, Drop)]
pub struct Room {
    bytes: Vec<u8>,
    left: usize,
}

impl Model for Room {
    ghost use Rattle.std.specs.Prelude.{◌+◌, ◌≤◌, vec_len, vec_capacity};
    ghost use Rattle.wasm_ops.specs.Rooms.{Filled, filled_code};

    ghost Value = { Filled };

    ghost coded = { filled_code };

    ghost view = { λ r. record { items = r.bytes.items; left = r.left } };

    ghost invariant = { λ r. vec_len r.bytes + r.left ≤ vec_capacity r.bytes };
}

impl Room {
    /// Reserves memory for `size` bytes with one allocation (E12 if it fails). The room contains no
    /// bytes yet.
    pub fn reserve<'e>(alloc: Global, size: usize) -> Result<Room, Error<'e>>
        ensures ok { IfOk result (λ r. r ≡ record { items = []; left = size }) }
        ensures err { IfErr result (λ e. e ≡ out_of_memory) }
    {
        let mut bytes = Vec::new(alloc);
        bytes.reserve(size)?;
        Ok(Room { bytes, left: size })
    }

    /// Returns how many more bytes fit.
    pub fn left(&self) -> usize
        ensures { result ≡ self.now.left }
    {
        self.left
    }

    /// Returns the bytes, in the order in which they were appended. Does not allocate.
    pub fn finish(self) -> Vec<u8>
        ensures { result.items ≡ self.items }
    {
        self.bytes
    }
}

/// Appends to a vector with enough capacity. Does not allocate.
fn push_reserved(out: &mut Vec<u8>, bytes: &[u8])
    requires { vec_len out.old + length bytes.now ≤ vec_capacity out.old }
    ensures items { out.new.items ≡ out.old.items ++ bytes.now }
    ensures capacity { vec_capacity out.old ≤ vec_capacity out.new }
{
    // Most numbers have one byte or two: they are written without a call.
    match bytes {
        [byte] => out.push_reserved(*byte),
        [first, second] => {
            out.push_reserved(*first);
            out.push_reserved(*second);
        }
        _ => match out.extend_from_slice(bytes) {
            Ok(()) => {}
            Err(_) => unreachable!(),
        },
    }
}

/// Appends the LEB128 encoding of a number, digit by digit.
///
/// It is a separate function, because only the code for short numbers should be inlined.
#[cold]
#[inline(never)]
fn push_long(room: &mut Room, n: u64) -> Result<(), Refusal>
    ensures { Writes rooms.rules (Unit {0}) room.old room.new (unsigned n) result }
{
    let (bytes, len) = unsigned_bytes(n);
    room.push_bytes(&bytes[..len])
}

/// Bytes fit if at most `left` of them are appended, and no write allocates. More is E10. Cutting
/// bytes off makes their memory available again.
impl Sink for Room {
    ghost rules = { rooms.rules };

    fn put<'e>(&mut self, bytes: &[u8]) -> Result<(), Error<'e>> {
        Ok(self.push_bytes(bytes)?)
    }

    fn push_bytes(&mut self, bytes: &[u8]) -> Result<(), Refusal> {
        if self.left < bytes.len() {
            return Err(Refusal::TooLarge);
        }
        push_reserved(&mut self.bytes, bytes);
        self.left -= bytes.len();
        Ok(())
    }

    fn push_number(&mut self, n: u64) -> Result<(), Refusal> {
        if n < 128 {
            return self.push_bytes(&[n as u8]);
        }
        if n < 16384 {
            return self.push_bytes(&[128 + (n % 128) as u8, (n / 128) as u8]);
        }
        if n < 2097152 {
            let rest = n / 128;
            return self.push_bytes(&[
                128 + (n % 128) as u8,
                128 + (rest % 128) as u8,
                (rest / 128) as u8,
            ]);
        }
        push_long(self, n)
    }

    fn size(&self) -> u64 {
        self.bytes.len() as u64
    }

    fn cut(&mut self, size: u64) {
        let size = size as usize;
        self.left += self.bytes.len() - size;
        self.bytes.truncate(size);
    }

    fn set_number(&mut self, at: u64, n: u64) -> bool {
        let more = further_width(n) as usize;
        if self.left < more {
            return false;
        }
        set_unsigned(&mut self.bytes, at as usize, n);
        self.left -= more;
        true
    }

    ghost laws = { record {
      none = rooms.none;
      grows = rooms.grows;
      joins = rooms.joins;
      cuts_back = rooms.cuts_back;
      sets = rooms.sets;
      fits_less = λ a m n. rooms.fits_less a m n;
      fits_rest = rooms.fits_rest;
    } };
}
