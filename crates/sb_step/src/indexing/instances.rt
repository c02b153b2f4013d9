// The instances that were read, in file order.
use crate::step_file::records::Record;
use crate::step_file::table::{Place, keyword_place};
use std::alloc::{AllocError, Global};

/// What is kept of the instances of a text. Nothing is looked up while it is read.
#[derive(Drop)]
pub(crate) struct Instances {
    pub numbers: Vec<u32>,
    /// Where their keywords stand.
    pub places: Vec<Place>,
}

impl Instances {
    ghost use Rattle.std.specs.Prelude.{◌≡◌, ℕ, List, [], ◌∷◌, ◌++◌, OnOk};
    ghost use Rattle.sb_step.specs.declared.step_file.records.Record.{Record as Stored};
    ghost use Rattle.sb_step.specs.Index.StoredInstances.{AreStored};

    /// None yet.
    pub(crate) fn new(alloc: Global) -> Instances
        ensures { AreStored [] result }
    {
        Instances {
            numbers: Vec::new(alloc),
            places: Vec::new(alloc),
        }
    }

    /// Keeps one instance more.
    pub(crate) fn insert(&mut self, number: u32, body: Record) -> Result<(), AllocError>
        ensures { (instances : List (ℕ × Stored)) → OnOk result (AreStored instances self.old
            → AreStored (instances ++ (number, body) ∷ []) self.new) }
    {
        self.numbers.push(number)?;
        self.places.push(keyword_place(body))?;
        Ok(())
    }
}
