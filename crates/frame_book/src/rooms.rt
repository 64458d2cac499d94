//! Room for the changes of settlements, made before it is known what comes of a claim.

use frame_history::Change;
use std::alloc::{AllocError, Global};
use std::marker::Model;

#[derive(Drop)]
pub(crate) struct Rooms {
    rooms: Vec<Vec<Change>>,
    // how many changes each has room for
    size: usize,
}

impl Model for Rooms {
    ghost use Rattle.frame_book.specs.Rooms.{Room, AreEmptyRooms};
    ghost use Rattle.std.specs.Prelude.{length, vec_capacity};

    ghost Value = { Room };

    ghost view = { λ r. record { count = length r.rooms.items; size = r.size; spare = vec_capacity r.rooms } };

    ghost invariant = { λ r. AreEmptyRooms r.size r.rooms.items };
}

impl Rooms {
    ghost use Rattle.std.specs.Prelude.{◌≡◌, ◌+◌, ◌-◌, ◌<◌, ◌≤◌, [], vec_capacity, vec_len, OnOk};
    ghost use Rattle.frame_book.specs.Rooms.{Room};

    /// No rooms; takes no memory.
    pub(crate) fn new(alloc: Global, size: usize) -> Rooms
        ensures count { result.count ≡ 0 }
        ensures size { result.size ≡ size }
    {
        Rooms {
            rooms: Vec::new(alloc),
            size,
        }
    }

    /// Makes a room, if there are fewer than so many.
    pub(crate) fn make(&mut self, count: usize) -> Result<(), AllocError>
        requires { count ≤ self.old.count + 1 }
        ensures size { self.new.size ≡ self.old.size }
        ensures more { self.old.count ≤ self.new.count }
        ensures done { OnOk result (count ≤ self.new.count) }
    {
        if self.rooms.len() < count {
            let alloc = *self.rooms.allocator();
            let room = Vec::with_capacity(alloc, self.size)?;
            self.rooms.push(room)?;
        }
        Ok(())
    }

    /// Takes a room; takes no memory.
    pub(crate) fn take(&mut self) -> Vec<Change>
        requires { 0 < self.old.count }
        ensures empty { result.items ≡ [] }
        ensures room { vec_len result + self.old.size ≤ vec_capacity result }
        ensures size { self.new.size ≡ self.old.size }
        ensures count { self.new.count + 1 ≡ self.old.count }
        ensures spare { self.new.count < self.new.spare }
    {
        let last = self.rooms.len() - 1;
        self.rooms.remove(last)
    }

    /// Gives a room back, which is empty; takes no memory.
    pub(crate) fn give(&mut self, room: Vec<Change>)
        requires empty { room.items ≡ [] }
        requires room { self.old.size ≤ vec_capacity room }
        requires spare { self.old.count < self.old.spare }
        ensures { self.new ≡ record self.old { count = self.old.count + 1 } }
    {
        self.rooms.push_reserved(room);
    }
}
