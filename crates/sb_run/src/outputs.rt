// The outputs of a run: it says a line, and puts the report.
ghost use Rattle.std.specs.Prelude.{◌≡◌, ◌≤◌, [], ◌∷◌, false, true, length, take, OnOk, OnErr};
ghost use Rattle.std.specs.Option.{ForSome};
ghost use Rattle.sb_shelf.specs.World.{OnlyOutput, OnlyWrites, Rose, also_asked};
ghost use Rattle.sb_run.specs.Promises.{Says};

use sb_shelf::{Out, Shelf, WriteFault, write_all};

/// Says a text. A fault of the message changes nothing else, and is not told.
pub(crate) fn say<S: Shelf>(shelf: &mut S, text: &[u8])
    ensures keeps { OnlyWrites Out.Said (S.state shelf.old) (S.state shelf.new) }
    ensures says { Says text.now (S.state shelf.old) (S.state shelf.new) }
{
    let _ = write_all(shelf, Out::Said, text);
}

/// Creates the report and writes it.
///
/// - `Ok(())`: the whole text stands there.
/// - `Err(WriteFault)`: only where the count of faults of the files rose. Where the report was
///   created, a first part of the text stands there.
pub(crate) fn put_report<S: Shelf>(shelf: &mut S, path: &str, text: &[u8]) -> Result<(), WriteFault>
    requires { (S.state shelf.old).is_created Out.Report ≡ false }
    ensures keeps { OnlyOutput Out.Report (S.state shelf.old) (S.state shelf.new) }
    ensures asked { (S.state shelf.new).asked_outputs ≡ also_asked (S.state shelf.old).asked_outputs
        (record { out = Out.Report; path = path.now } ∷ []) }
    ensures said_faults { (S.state shelf.new).said_faults ≡ (S.state shelf.old).said_faults }
    ensures file_faults { (S.state shelf.old).file_faults ≤ (S.state shelf.new).file_faults }
    ensures written { OnOk result
        (ForSome ((S.state shelf.new).bytes Out.Report) (λ bytes. bytes ≡ text.now)) }
    ensures fault { OnErr result
        (Rose (S.state shelf.old).file_faults (S.state shelf.new).file_faults) }
    ensures in_part { OnErr result ((S.state shelf.new).is_created Out.Report ≡ true
        → ForSome ((S.state shelf.new).bytes Out.Report)
        (λ bytes. bytes ≡ take (length bytes) text.now)) }
{
    match shelf.create(Out::Report, path) {
        Err(_) => Err(WriteFault),
        Ok(()) => write_all(shelf, Out::Report, text),
    }
}
