ghost use Rattle.std.specs.Prelude.{◌≡◌, ◌++◌, true, Some, OnOk, OnErr};
ghost use Rattle.std.specs.Option.{ForSome};
ghost use Rattle.sb_shelf.specs.World.{OnlyWrites, Rose, faults_of};
ghost use Rattle.sb_shelf.specs.WholeTexts.{AppendsFirstOf};

use crate::shelf::{Out, Shelf};

/// A write has failed, and only a first part of the text stands on its output.
#[derive(Drop)]
pub struct WriteFault;

/// Appends the whole text to the output, without memory. The output has to be created.
///
/// - `Ok(())`: the whole text stands there, where the shelf tells the bytes.
/// - `Err(WriteFault)`: only where the count of this output rose in this call. A first part of the
///   text was appended then, where the shelf tells the bytes.
///
/// In each case all else is as it was. An empty text makes no call.
pub fn write_all<S: Shelf>(shelf: &mut S, out: Out, text: &[u8]) -> Result<(), WriteFault>
    requires { (S.state shelf.old).is_created out ≡ true }
    ensures keeps { OnlyWrites out (S.state shelf.old) (S.state shelf.new) }
    ensures bytes { OnOk result (ForSome ((S.state shelf.old).bytes out) (λ before.
        (S.state shelf.new).bytes out ≡ Some (before ++ text.now))) }
    ensures fault { OnErr result
        (Rose (faults_of out (S.state shelf.old)) (faults_of out (S.state shelf.new))) }
    ensures first_part { OnErr result (ForSome ((S.state shelf.old).bytes out) (λ before.
        ForSome ((S.state shelf.new).bytes out) (AppendsFirstOf text.now before))) }
{
    let mut done = 0;
    'turns: while done < text.len() {
        let Ok(count) = shelf.write(out, &text[done..]) else {
            return Err(WriteFault);
        };
        done += count;
    }
    Ok(())
}
