ghost use Rattle.std.specs.Prelude.{◌≡◌, false, true, ℕ, List, IsSome};

/// Where the program writes.
#[derive(Clone, Copy)]
pub enum Out {
    /// The building model with its boundaries, an IFC file.
    Ifc,
    /// The boundaries as input of EnergyPlus.
    Idf,
    /// The list of the boundaries, a JSON file.
    Report,
    /// The message to the user: standard output.
    Said,
}

/// A call of a shelf has failed. Its count of faults rose, what it was asked for is told where the
/// shelf tells that, and all else is as it was.
#[derive(Drop)]
pub struct Failed;

/// The world outside the program.
///
/// A shelf may tell the bytes under a path, what is left to read, the bytes on an output, and what
/// was asked of `open` and of `create`; which of these it tells never changes. It counts its failed
/// calls in three counts that never fall: of `open` and `read`, of `create` and of `write` to the
/// three files, and of `write` to `Said`. Each count stays at 2^64 - 1 once it is there.
pub trait Shelf {
    ghost use Rattle.sb_shelf.specs.World.{World};
    ghost use Rattle.sb_shelf.specs.Calls.{Opens, ReadsInto, Creates, Writes};
    ghost use Rattle.sb_shelf.specs.declared.shelf.Out.TheVariants.{Said};

    /// What the shelf stands for.
    ghost state: { Self → World };

    /// Makes the bytes under the path what is left to read.
    fn open(&mut self, path: &str) -> Result<(), Failed>
        ensures { Opens path.now result (state self.old) (state self.new) };

    /// Moves the first of the bytes that are left into the piece, and answers how many.
    ///
    /// 0 for a piece that is not empty comes exactly at the end.
    fn read(&mut self, into: &mut [u8]) -> Result<usize, Failed>
        ensures { ReadsInto into.old into.new result (state self.old) (state self.new) };

    /// Makes the output created and empty.
    fn create(&mut self, out: Out, path: &str) -> Result<(), Failed>
        requires { (state self.old).is_created out ≡ false }
        ensures { Creates out path.now result (state self.old) (state self.new) };

    /// Appends the first bytes of the piece to the output, and answers how many: at least one of a
    /// piece that is not empty.
    fn write(&mut self, out: Out, piece: &[u8]) -> Result<usize, Failed>
        requires { (state self.old).is_created out ≡ true }
        ensures { Writes out piece.now result (state self.old) (state self.new) };

    /// The message needs no `create`.
    ghost said_is_created: { (shelf : Self) → (state shelf).is_created Said ≡ true };

    /// A shelf that tells the bytes under a path tells what is left to read.
    ghost tells_left: { (shelf : Self) (path : List ℕ)
        → IsSome ((state shelf).under path) → IsSome (state shelf).left };
}
