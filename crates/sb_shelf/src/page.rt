ghost use Rattle.std.specs.Prelude.{◌≡◌, ◌+◌, ◌-◌, ◌≤◌, ◌++◌, [], false, true, length, OnOk};
ghost use Rattle.std.specs.Prelude.{vec_len, vec_capacity};

use std::alloc::{AllocError, Global};

/// The bytes on one output in memory.
#[derive(Drop)]
pub(crate) struct Page {
    pub(crate) is_created: bool,
    pub(crate) bytes: Vec<u8>,
    /// How many more bytes may be written.
    pub(crate) room: usize,
    ghost blank: { is_created ≡ false → vec_len bytes ≡ 0 },
    ghost room_is_there: { vec_len bytes + room ≤ vec_capacity bytes },
}

impl Page {
    pub(crate) fn new(alloc: Global, is_created: bool) -> Self
        ensures created { result.is_created ≡ is_created }
        ensures empty { result.bytes.items ≡ [] }
        ensures room { result.room ≡ 0 }
    {
        Page {
            is_created,
            bytes: Vec::new(alloc),
            room: 0,
        }
    }

    pub(crate) fn create(&mut self)
        requires { self.old.is_created ≡ false }
        ensures created { self.new.is_created ≡ true }
        ensures empty { self.new.bytes.items ≡ [] }
        ensures room { self.new.room ≡ self.old.room }
    {
        self.is_created = true;
    }

    /// Appends these bytes, for which there is room.
    pub(crate) fn append(&mut self, bytes: &[u8])
        requires created { self.old.is_created ≡ true }
        requires fits { length bytes.now ≤ self.old.room }
        ensures created { self.new.is_created ≡ true }
        ensures bytes { self.new.bytes.items ≡ self.old.bytes.items ++ bytes.now }
        ensures room { self.new.room ≡ self.old.room - length bytes.now }
    {
        self.bytes.extend_from_slice(bytes).unwrap();
        self.room -= bytes.len();
    }

    /// Makes room for so many more bytes, without promising it to a write yet.
    pub(crate) fn make_room(&mut self, bytes: usize) -> Result<(), AllocError>
        ensures created { self.new.is_created ≡ self.old.is_created }
        ensures bytes { self.new.bytes.items ≡ self.old.bytes.items }
        ensures room { self.new.room ≡ self.old.room }
        ensures made { OnOk result (vec_len self.new.bytes + bytes ≤ vec_capacity self.new.bytes) }
    {
        self.bytes.reserve(bytes)
    }

    /// Sets the room, which was made before.
    pub(crate) fn set_room(&mut self, bytes: usize)
        requires { vec_len self.old.bytes + bytes ≤ vec_capacity self.old.bytes }
        ensures created { self.new.is_created ≡ self.old.is_created }
        ensures bytes { self.new.bytes.items ≡ self.old.bytes.items }
        ensures room { self.new.room ≡ bytes }
    {
        self.room = bytes;
    }
}
