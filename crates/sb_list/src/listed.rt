ghost use Rattle.std.specs.Prelude.{◌≡◌, [], ◌∷◌, ◌++◌, ◌<◌, ◌↔◌, length, slice_get, IsTrue};
ghost use Rattle.std.specs.Prelude.{IsSome, IfOk, OnOk, OnErr};
ghost use Rattle.std.specs.Option.{option_copied};

use std::alloc::{AllocError, Global};
use std::marker::Model;

/// A list that grows at its end. It keeps the allocator that it was made with.
#[derive(Debug, Drop)]
pub struct Listed<T> {
    items: Vec<T>,
}

impl<T> Model for Listed<T> {
    ghost use Rattle.std.specs.Prelude.{List};
    ghost use Rattle.std.specs.Coded.{coded_list};

    ghost Value = { List T };

    ghost coded = { coded_list T.code };

    ghost view = { λ list. list.items.items };
}

impl<T> Listed<T> {
    /// An empty list. It takes no memory before the first `push`.
    pub fn new(alloc: Global) -> Self
        ensures { result ≡ [] }
    {
        Listed {
            items: Vec::new(alloc),
        }
    }

    /// How many items the list has.
    pub fn len(&self) -> usize
        ensures { result ≡ length self.now }
    {
        self.items.len()
    }

    /// Whether the list has no item.
    pub fn is_empty(&self) -> bool
        ensures { IsTrue result ↔ (self.now ≡ []) }
    {
        self.items.is_empty()
    }

    /// Item `i`, counted from 0, or `None` exactly where `i` is not below the length.
    pub fn get(&self, i: usize) -> Option<&T>
        ensures item { option_copied result ≡ slice_get self.now i }
        ensures within { IsSome result ↔ (i < length self.now) }
    {
        self.items.get(i)
    }

    /// The items in order, without memory.
    pub fn as_slice(&self) -> &[T]
        ensures { result.now ≡ self.now }
    {
        self.items.as_slice()
    }
}

impl<T: Drop> Listed<T> {
    /// Appends one item. Want of memory leaves the list as it was; the item is dropped then.
    pub fn push(&mut self, item: T) -> Result<(), AllocError>
        ensures ok { OnOk result (self.new ≡ self.old ++ item ∷ []) }
        ensures err { OnErr result (self.new ≡ self.old) }
    {
        self.items.push(item)?;
        Ok(())
    }
}

impl<T: Copy> Listed<T> {
    /// The list of these items, in order.
    pub fn from_slice(alloc: Global, items: &[T]) -> Result<Self, AllocError>
        ensures { IfOk result (λ list. list ≡ items.now) }
    {
        let items = Vec::from_slice(alloc, items)?;
        Ok(Listed { items })
    }

    /// Appends these items, in order. Want of memory leaves the list as it was.
    pub fn extend_from_slice(&mut self, items: &[T]) -> Result<(), AllocError>
        ensures ok { OnOk result (self.new ≡ self.old ++ items.now) }
        ensures err { OnErr result (self.new ≡ self.old) }
    {
        self.items.extend_from_slice(items)
    }

    /// An equal list, on the allocator of this one.
    pub fn copy(&self) -> Result<Self, AllocError>
        ensures { IfOk result (λ list. list ≡ self.now) }
    {
        Self::from_slice(*self.items.allocator(), self.items.as_slice())
    }
}
