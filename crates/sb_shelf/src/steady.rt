ghost use Rattle.std.specs.Prelude.{◌≡◌, [], false, true, length, min, IsOk, IfOk, IfSome};

use crate::input::Input;
use crate::shelf::{Failed, Out, Shelf};
use sb_list::Text;
use std::alloc::Global;

/// A shelf in memory of which no call fails.
///
/// It holds bytes under one path; any other path has none. It tells the bytes under each path and
/// what is left to read. What is written to an output is dropped: of each it keeps only whether it
/// was created. Its three counts of faults are 0 for good.
#[derive(Drop)]
pub struct SteadyShelf {
    input: Input,
    has_ifc: bool,
    has_idf: bool,
    has_report: bool,
}

impl SteadyShelf {
    ghost use Rattle.sb_shelf.specs.World.{IsUntouched};
    ghost use Rattle.sb_shelf.specs.Steady.{never_failing, steady_state};

    /// A shelf with these bytes under this path. Nothing is left to read before the first `open`,
    /// and only the message is created.
    ///
    /// The two texts bring their own memory, and no more is taken. The allocator is that of a
    /// shelf that may come to hold more.
    pub fn new(_alloc: Global, path: Text, bytes: Text) -> Self
        ensures state { steady_state result ≡ never_failing path bytes [] false false false }
        ensures files { IsUntouched (steady_state result) }
    {
        SteadyShelf {
            input: Input::new(path, bytes),
            has_ifc: false,
            has_idf: false,
            has_report: false,
        }
    }
}

impl Shelf for SteadyShelf {
    ghost use Rattle.sb_shelf.specs.Calls.{Opens, ReadsInto, Creates, Writes};
    ghost use Rattle.sb_shelf.specs.Steady.{steady_state};
    ghost use Rattle.std.proofs.Common.{refl};

    ghost state = { steady_state };

    ghost said_is_created = { λ s. refl };

    ghost tells_left = { λ s path told. refl };

    fn open(&mut self, path: &str) -> Result<(), Failed>
        ensures meets { Opens path.now result (steady_state self.old) (steady_state self.new) }
        ensures never_fails { IsOk result }
    {
        self.input.open(path);
        Ok(())
    }

    fn read(&mut self, into: &mut [u8]) -> Result<usize, Failed>
        ensures meets { ReadsInto into.old into.new result
            (steady_state self.old) (steady_state self.new) }
        ensures never_fails { IsOk result }
        ensures count { IfOk result (λ n. IfSome (steady_state self.old).left (λ left.
            n ≡ min (length into.old) (length left))) }
    {
        let most = into.len();
        Ok(self.input.read(into, most))
    }

    fn create(&mut self, out: Out, path: &str) -> Result<(), Failed>
        requires { (steady_state self.old).is_created out ≡ false }
        ensures meets { Creates out path.now result
            (steady_state self.old) (steady_state self.new) }
        ensures never_fails { IsOk result }
    {
        match out {
            Out::Ifc => self.has_ifc = true,
            Out::Idf => self.has_idf = true,
            Out::Report => self.has_report = true,
            // The message is created from the start, and nobody creates it again.
            Out::Said => {}
        }
        Ok(())
    }

    fn write(&mut self, out: Out, piece: &[u8]) -> Result<usize, Failed>
        requires { (steady_state self.old).is_created out ≡ true }
        ensures meets { Writes out piece.now result
            (steady_state self.old) (steady_state self.new) }
        ensures never_fails { IsOk result }
        ensures count { IfOk result (λ n. n ≡ length piece.now) }
    {
        Ok(piece.len())
    }
}
