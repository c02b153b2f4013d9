// What was found in a text so far.
use crate::indexing::instances::Instances;
use crate::indexing::states::Event;
use crate::step_file::schema::{Schema, with_entity};
use std::alloc::{AllocError, Global};

/// The instances that were read, and what the schema needs of the header.
#[derive(Drop)]
pub(crate) struct Collected {
    pub schema: Schema,
    pub instances: Instances,
}

impl Collected {
    ghost use Rattle.std.specs.Prelude.{◌≡◌, ℕ, List, [], ◌∷◌, ◌++◌, OnOk};
    ghost use Rattle.sb_step.specs.declared.indexing.states.Event.{Event as Seen};
    ghost use Rattle.sb_step.specs.Index.Collects.{AreCollected};

    /// Nothing yet.
    pub(crate) fn new(alloc: Global) -> Collected
        ensures { (input : List ℕ) → AreCollected input [] result }
    {
        Collected {
            schema: Schema::Missing,
            instances: Instances::new(alloc),
        }
    }

    /// Keeps what was found at one token more of these bytes.
    pub(crate) fn add(&mut self, bytes: &[u8], event: Event) -> Result<(), AllocError>
        ensures { (events : List Seen) → OnOk result (AreCollected bytes.now events self.old
            → AreCollected bytes.now (events ++ event ∷ []) self.new) }
    {
        match event {
            Event::Nothing => {}
            Event::Entity(entity) => self.schema = with_entity(self.schema, bytes, entity),
            Event::Instance(number, body) => self.instances.insert(number, body)?,
        }
        Ok(())
    }
}
