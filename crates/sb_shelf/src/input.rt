ghost use Rattle.std.specs.Prelude.{◌≡◌, ◌≤◌, [], length, min, take, drop, ◌++◌};

use sb_list::Text;

/// The bytes under one path, and how far they were read.
#[derive(Drop)]
pub(crate) struct Input {
    pub(crate) path: Text,
    pub(crate) bytes: Text,
    /// How many of the bytes were taken: all of them before the first `open`.
    pub(crate) taken: usize,
    ghost taken_is_there: { taken ≤ length bytes },
}

impl Input {
    ghost use Rattle.sb_shelf.specs.Input.{left_of, told_under};

    pub(crate) fn new(path: Text, bytes: Text) -> Self
        ensures path { result.path ≡ path }
        ensures bytes { result.bytes ≡ bytes }
        ensures left { left_of result ≡ [] }
    {
        let taken = bytes.len();
        Input { path, bytes, taken }
    }

    /// Makes the bytes under this path what is left; a path that is not held has none.
    pub(crate) fn open(&mut self, path: &str)
        ensures left { left_of self.new ≡ told_under self.old path.now }
        ensures path { self.new.path ≡ self.old.path }
        ensures bytes { self.new.bytes ≡ self.old.bytes }
    {
        if path.as_bytes() == self.path.bytes() {
            self.taken = 0;
        } else {
            self.taken = self.bytes.len();
        }
    }

    /// Moves the first of the bytes that are left into the piece, as many as there are and as fit,
    /// but at most so many. Answers how many.
    pub(crate) fn read(&mut self, into: &mut [u8], most: usize) -> usize
        ensures count { result ≡ min most (min (length into.old) (length (left_of self.old))) }
        ensures moved { into.new ≡ take result (left_of self.old) ++ drop result into.old }
        ensures left { left_of self.new ≡ drop result (left_of self.old) }
        ensures path { self.new.path ≡ self.old.path }
        ensures bytes { self.new.bytes ≡ self.old.bytes }
    {
        let left = &self.bytes.bytes()[self.taken..];
        let count = most.min(into.len().min(left.len()));
        into[..count].copy_from_slice(&left[..count]);
        self.taken += count;
        count
    }
}
