//! Bytes that a call returns, and how they are stored.
ghost use Rattle.std.specs.Prelude.{◌≡◌, ◌≤◌, [], ◌++◌, length, decimal, IfOk, OnOk, OnErr};

use arrayvec::ArrayVec;
use itoa::Buffer;
use std::alloc::{AllocError, Allocator};
use std::marker::Model;

/// The number of bytes that are stored without allocation.
const INLINE_MOST: usize = 24;

/// Bytes: a few inline, or more in allocated memory.
#[derive(Drop)]
pub(crate) enum ByteStorage<A: Allocator + Copy> {
    /// A few bytes; where they become too many, memory is allocated by this allocator.
    Few(A, ArrayVec<u8, INLINE_MOST>),
    Many(Vec<u8, A>),
}

/// Bytes that a call returns; a few bytes need no allocation. Contracts see the list of them.
#[derive(Drop)]
pub struct Bytes<A: Allocator + Copy> {
    storage: ByteStorage<A>,
}

impl<A: Allocator + Copy> Model for Bytes<A> {
    ghost use Rattle.std.specs.Prelude.{List, ℕ};
    ghost use Rattle.psu_lex.specs.ByteStorage.{bytes_in, AllocatesForMany};

    ghost Value = { List ℕ };

    ghost view = { λ bytes. bytes_in bytes.storage };

    ghost invariant = { λ bytes. AllocatesForMany bytes.storage };
}

// Returns a list of a few bytes followed by more bytes.
fn joined<A: Allocator + Copy>(alloc: A, few: &[u8], more: &[u8]) -> Result<Vec<u8, A>, AllocError>
    ensures { IfOk result (λ list. list.items ≡ few.now ++ more.now) }
{
    let mut list = few.to_vec(alloc)?;
    list.extend_from_slice(more)?;
    Ok(list)
}

impl<A: Allocator + Copy> Bytes<A> {
    ghost use Rattle.psu_lex.specs.ByteStorage.{NeedsAllocation};

    /// Returns no bytes. This does not allocate.
    pub fn new(alloc: A) -> Bytes<A>
        ensures { result ≡ [] }
    {
        Bytes {
            storage: ByteStorage::Few(alloc, ArrayVec::new()),
        }
    }

    /// Returns a few bytes. This does not allocate.
    pub fn few(alloc: A, bytes: &[u8]) -> Bytes<A>
        requires { length bytes.now ≤ 24 }
        ensures { result ≡ bytes.now }
    {
        let mut few = ArrayVec::new();
        match few.try_extend_from_slice(bytes) {
            Ok(()) => Bytes {
                storage: ByteStorage::Few(alloc, few),
            },
            Err(_) => unreachable!(),
        }
    }

    /// Returns the bytes of a list. This does not allocate.
    pub(crate) fn of_list(alloc: A, list: Vec<u8, A>) -> Bytes<A>
        ensures { result ≡ list.items }
    {
        let mut few = ArrayVec::new();
        match few.try_extend_from_slice(list.as_slice()) {
            Ok(()) => Bytes {
                storage: ByteStorage::Few(alloc, few),
            },
            Err(_) => Bytes {
                storage: ByteStorage::Many(list),
            },
        }
    }

    /// Returns these bytes. Only more than 24 bytes need an allocation.
    pub fn of(alloc: A, bytes: &[u8]) -> Result<Bytes<A>, AllocError>
        ensures ok { IfOk result (λ copy. copy ≡ bytes.now) }
        ensures many { OnErr result (NeedsAllocation bytes.now) }
    {
        if bytes.len() <= INLINE_MOST {
            return Ok(Bytes::few(alloc, bytes));
        }
        Ok(Bytes {
            storage: ByteStorage::Many(bytes.to_vec(alloc)?),
        })
    }

    /// Appends bytes. Only where there are then more than 24, it needs an allocation; if that fails, nothing has
    /// changed.
    pub fn put(&mut self, bytes: &[u8]) -> Result<(), AllocError>
        ensures ok { OnOk result (self.new ≡ self.old ++ bytes.now) }
        ensures err { OnErr result (self.new ≡ self.old) }
        ensures many { OnErr result (NeedsAllocation (self.old ++ bytes.now)) }
    {
        match &mut self.storage {
            ByteStorage::Few(alloc, few) => {
                if few.try_extend_from_slice(bytes).is_err() {
                    let list = joined(*alloc, few.as_slice(), bytes)?;
                    self.storage = ByteStorage::Many(list);
                }
                Ok(())
            }
            ByteStorage::Many(list) => list.extend_from_slice(bytes),
        }
    }

    /// Appends a number in decimal digits, as `put` appends bytes.
    pub fn put_number(&mut self, number: u128) -> Result<(), AllocError>
        ensures ok { OnOk result (self.new ≡ self.old ++ decimal number) }
        ensures err { OnErr result (self.new ≡ self.old) }
        ensures many { OnErr result (NeedsAllocation (self.old ++ decimal number)) }
    {
        let mut buffer = Buffer::new();
        self.put(buffer.format(number).as_bytes())
    }

    /// Returns the bytes, in order.
    pub fn as_slice(&self) -> &[u8]
        ensures { result.now ≡ self.now }
    {
        match &self.storage {
            ByteStorage::Few(_, few) => few.as_slice(),
            ByteStorage::Many(list) => list.as_slice(),
        }
    }
}
