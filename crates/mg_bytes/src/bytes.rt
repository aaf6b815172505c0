ghost use Rattle.std.specs.Prelude.{◌≡◌, ◌+◌, ◌≤◌, ◌++◌, [], length, take, IfOk};
ghost use Rattle.mg_bytes.specs.Bytes.{appended};
ghost use Rattle.mg_bytes.specs.aids.Cut.{cut_to};

use std::alloc::{AllocError, Global};
use std::marker::Model;

/// A text buffer of fixed capacity.
///
/// In contracts, it appears as the text and the room that remains, in bytes.
#[derive(Drop)]
pub struct Bytes {
    /// The whole buffer, which starts with the text.
    bytes: Vec<u8>,
    len: usize,
}

impl Model for Bytes {
    ghost use Rattle.std.specs.Prelude.{◌-◌, ◌≤◌, length, take};
    ghost use Rattle.mg_bytes.specs.Bytes.{Written};

    ghost Value = { Written };

    ghost view = { λ b. record { text = take b.len b.bytes.items; room = length b.bytes.items - b.len } };

    ghost invariant = { λ b. b.len ≤ length b.bytes.items };
}

/// Writes the whole storage of a text that consists of its first `len` bytes.
fn write_at<const N: usize>(bytes: &mut [u8], at: usize, storage: &[u8; N], len: usize)
    requires fits { at + N ≤ length bytes.old }
    requires within { len ≤ N }
    ensures value { take (at + len) bytes.new ≡ take at bytes.old ++ take len storage.now }
    ensures len { length bytes.new ≡ length bytes.old }
{
    bytes[at..at + N].copy_from_slice(storage);
}

impl Bytes {
    /// Creates an empty buffer with room for `room` bytes. Fails only if the allocation fails. No other call allocates.
    pub fn new(alloc: Global, room: usize) -> Result<Self, AllocError>
        ensures value { IfOk result (λ bytes. bytes ≡ record { text = []; room = room }) }
    {
        Ok(Bytes {
            bytes: Vec::from_elem(alloc, 0, room)?,
            len: 0,
        })
    }

    /// Returns a buffer without capacity that uses another buffer's allocator. Does not allocate.
    pub fn empty_like(other: &Bytes) -> Self
        ensures value { result ≡ record { text = []; room = 0 } }
    {
        let alloc = *other.bytes.allocator();
        Bytes {
            bytes: Vec::new(alloc),
            len: 0,
        }
    }

    /// Returns the text.
    pub fn as_slice(&self) -> &[u8]
        ensures value { result.now ≡ self.now.text }
    {
        &self.bytes[..self.len]
    }

    /// Returns the room that remains, in bytes.
    pub fn room(&self) -> usize
        ensures value { result ≡ self.now.room }
    {
        self.bytes.len() - self.len
    }

    /// Appends to the text.
    pub fn push(&mut self, part: &[u8])
        requires fits { length part.now ≤ self.old.room }
        ensures value { self.new ≡ appended self.old part.now }
    {
        let end = self.len + part.len();
        self.bytes[self.len..end].copy_from_slice(part);
        self.len = end;
    }

    /// Appends the first `len` bytes of a storage. If there is room, copies the whole storage, in one move if it is
    /// small.
    pub fn push_stored<const N: usize>(&mut self, storage: &[u8; N], len: usize)
        requires within { len ≤ N }
        requires fits { len ≤ self.old.room }
        ensures value { self.new ≡ appended self.old (take len storage.now) }
    {
        if N > self.room() {
            self.push(&storage[..len]);
            return;
        }
        write_at(&mut self.bytes, self.len, storage, len);
        self.len += len;
    }

    /// Empties the text.
    pub fn clear(&mut self)
        ensures value { self.new ≡ record { text = []; room = self.old.room + length self.old.text } }
    {
        self.len = 0;
    }

    /// Shortens the text to its first `len` bytes.
    pub fn truncate(&mut self, len: usize)
        requires within { len ≤ length self.old.text }
        ensures value { self.new ≡ cut_to len self.old }
    {
        self.len = len;
    }
}
