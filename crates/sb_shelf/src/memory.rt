ghost use Rattle.std.specs.Prelude.{◌≡◌, ◌-◌, ◌<◌, ◌≤◌, ◌||◌, false, true, length, min, nat_lt};
ghost use Rattle.std.specs.Prelude.{Some, is_some, is_err, IfOk, IfSome, OnOk, OnErr};

use crate::counting::{Calls, append_unless, begin_call, is_next_listed};
use crate::input::Input;
use crate::page::Page;
use crate::shelf::{Failed, Out, Shelf};
use sb_list::Text;
use std::alloc::{AllocError, Global};

/// A shelf in memory, which tells all bytes and fails at the calls that it is told to fail.
///
/// It holds bytes under one path; any other path has none. It numbers its calls of `open`, `read`,
/// `create` and `write` from 1 and fails those that are listed; once the number is 2^64 - 1 it
/// stays there. A write also fails where its bytes do not fit in the room of their output, which is
/// 0 until [`MemoryShelf::reserve`] sets it. Each count of faults is the number of its calls that
/// have failed, at most 2^64 - 1.
#[derive(Drop)]
pub struct MemoryShelf {
    input: Input,
    failing: Calls,
    calls: u64,
    /// The most bytes that a read or a write moves.
    piece: usize,
    ifc: Page,
    idf: Page,
    report: Page,
    said: Page,
    read_faults: u64,
    file_faults: u64,
    said_faults: u64,
    ghost moves_some: { 0 < piece },
    ghost message_is_created: { said.is_created ≡ true },
}

impl MemoryShelf {
    ghost use Rattle.sb_shelf.specs.Memory.{IsNew, SameButRooms, room_of, memory_state};
    ghost use Rattle.sb_shelf.specs.declared.shelf.Out.{Out};

    /// A shelf with these bytes under this path, where the calls of these numbers will fail and a
    /// read or a write moves at most `piece` bytes.
    pub fn new(alloc: Global, path: Text, bytes: Text, failing: Calls, piece: usize) -> Self
        requires { 0 < piece }
        ensures { IsNew path bytes failing piece result }
    {
        MemoryShelf {
            input: Input::new(path, bytes),
            failing,
            calls: 0,
            piece,
            ifc: Page::new(alloc, false),
            idf: Page::new(alloc, false),
            report: Page::new(alloc, false),
            said: Page::new(alloc, true),
            read_faults: 0,
            file_faults: 0,
            said_faults: 0,
        }
    }

    /// Sets the room that is left on each of the four outputs to so many bytes. Want of memory
    /// leaves the room as it was.
    pub fn reserve(&mut self, bytes: usize) -> Result<(), AllocError>
        ensures room { OnOk result ((out : Out) → room_of self.new out ≡ bytes) }
        ensures err { OnErr result ((out : Out) → room_of self.new out ≡ room_of self.old out) }
        ensures same { SameButRooms self.old self.new }
    {
        self.ifc.make_room(bytes)?;
        self.idf.make_room(bytes)?;
        self.report.make_room(bytes)?;
        self.said.make_room(bytes)?;
        self.ifc.set_room(bytes);
        self.idf.set_room(bytes);
        self.report.set_room(bytes);
        self.said.set_room(bytes);
        Ok(())
    }

    /// The bytes on the output, or `None` exactly where it is not created.
    pub fn written(&self, out: Out) -> Option<&[u8]>
        ensures created { is_some result ≡ (memory_state self.now).is_created out }
        ensures bytes { IfSome result
            (λ bytes. (memory_state self.now).bytes out ≡ Some bytes.now) }
    {
        let page = match out {
            Out::Ifc => &self.ifc,
            Out::Idf => &self.idf,
            Out::Report => &self.report,
            Out::Said => &self.said,
        };
        if page.is_created {
            Some(page.bytes.as_slice())
        } else {
            None
        }
    }
}

impl Shelf for MemoryShelf {
    ghost use Rattle.sb_shelf.specs.Calls.{Opens, ReadsInto, Creates, Writes};
    ghost use Rattle.sb_shelf.specs.Memory.{memory_state, is_listed, at_most_a_piece, room_of};
    ghost use Rattle.sb_shelf.specs.Memory.{IsCall, SameRooms, SameOtherRooms};
    ghost use Rattle.sb_shelf.specs.Counting.{CountsReads, CountsCreates, CountsWrites};
    ghost use Rattle.std.proofs.Common.{refl};

    ghost state = { memory_state };

    ghost said_is_created = { λ m. m.message_is_created };

    ghost tells_left = { λ m path told. refl };

    fn open(&mut self, path: &str) -> Result<(), Failed>
        ensures meets { Opens path.now result (memory_state self.old) (memory_state self.new) }
        ensures fails { is_err result ≡ is_listed self.old }
        ensures faults { CountsReads result (memory_state self.old) (memory_state self.new) }
        ensures called { IsCall self.old self.new }
        ensures rooms { SameRooms self.old self.new }
    {
        begin_call(&mut self.calls, &self.failing, &mut self.read_faults)?;
        self.input.open(path);
        Ok(())
    }

    fn read(&mut self, into: &mut [u8]) -> Result<usize, Failed>
        ensures meets { ReadsInto into.old into.new result
            (memory_state self.old) (memory_state self.new) }
        ensures fails { is_err result ≡ is_listed self.old }
        ensures count { IfOk result (λ n. IfSome (memory_state self.old).left (λ left.
            n ≡ at_most_a_piece self.old (min (length into.old) (length left)))) }
        ensures faults { CountsReads result (memory_state self.old) (memory_state self.new) }
        ensures called { IsCall self.old self.new }
        ensures rooms { SameRooms self.old self.new }
    {
        begin_call(&mut self.calls, &self.failing, &mut self.read_faults)?;
        Ok(self.input.read(into, self.piece))
    }

    fn create(&mut self, out: Out, path: &str) -> Result<(), Failed>
        requires { (memory_state self.old).is_created out ≡ false }
        ensures meets { Creates out path.now result
            (memory_state self.old) (memory_state self.new) }
        ensures fails { is_err result ≡ is_listed self.old }
        ensures faults { CountsCreates result (memory_state self.old) (memory_state self.new) }
        ensures called { IsCall self.old self.new }
        ensures rooms { SameRooms self.old self.new }
    {
        begin_call(&mut self.calls, &self.failing, &mut self.file_faults)?;
        match out {
            Out::Ifc => self.ifc.create(),
            Out::Idf => self.idf.create(),
            Out::Report => self.report.create(),
            Out::Said => self.said.create(),
        }
        Ok(())
    }

    fn write(&mut self, out: Out, piece: &[u8]) -> Result<usize, Failed>
        requires { (memory_state self.old).is_created out ≡ true }
        ensures meets { Writes out piece.now result
            (memory_state self.old) (memory_state self.new) }
        ensures fails { is_err result ≡ (is_listed self.old
            || nat_lt (room_of self.old out) (at_most_a_piece self.old (length piece.now))) }
        ensures count { IfOk result (λ n. n ≡ at_most_a_piece self.old (length piece.now)) }
        ensures faults { CountsWrites out result (memory_state self.old) (memory_state self.new) }
        ensures called { IsCall self.old self.new }
        ensures lowered { IfOk result (λ n. room_of self.new out ≡ room_of self.old out - n) }
        ensures room_stays { OnErr result (room_of self.new out ≡ room_of self.old out) }
        ensures other_rooms { SameOtherRooms out self.old self.new }
    {
        let is_listed = is_next_listed(&mut self.calls, &self.failing);
        let part = &piece[..self.piece.min(piece.len())];
        match out {
            Out::Ifc => append_unless(is_listed, &mut self.ifc, part, &mut self.file_faults),
            Out::Idf => append_unless(is_listed, &mut self.idf, part, &mut self.file_faults),
            Out::Report => append_unless(is_listed, &mut self.report, part, &mut self.file_faults),
            Out::Said => append_unless(is_listed, &mut self.said, part, &mut self.said_faults),
        }
    }
}
