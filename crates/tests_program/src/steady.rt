// A run over a shelf that never fails.
ghost use Rattle.std.specs.Prelude.{◌≡◌, List, ℕ, map, string_bytes};
ghost use Rattle.sb_form.specs.declared.matcher.FirstForm.{FirstForm};
ghost use Rattle.sb_run.specs.Promises.{IsDoneOrNoMemory, IsInput, IsSoundForm};
ghost use Rattle.sb_shelf.specs.World.{IsUntouched};
ghost use Rattle.sb_shelf.specs.Steady.{steady_state};

use sb_run::{Answer, run};
use sb_shelf::SteadyShelf;
use std::alloc::Global;

/// Runs over a shelf that never fails. By the clauses of `run` alone no fault is answered, and an
/// input of the first form without a defect is done unless there is no memory.
pub fn run_without_faults(alloc: Global, words: &[String], shelf: &mut SteadyShelf) -> Answer
    requires { IsUntouched (steady_state shelf.old) }
    ensures no_read_fault { ¬ (result ≡ Answer.ReadFault) }
    ensures no_write_fault { ¬ (result ≡ Answer.WriteFault) }
    ensures complete { (input : List ℕ)
        → IsInput (map string_bytes words.now) (steady_state shelf.old) input
        → (form : FirstForm) → IsSoundForm form input → IsDoneOrNoMemory result }
{
    run(alloc, words, shelf)
}
