// The laws of what a file says and of its first defect.
ghost use Rattle.sb_step.specs.IndexAnswers.{IsIndexed};
ghost use Rattle.sb_profile.specs.Contents.{Contents, Says};
ghost use Rattle.sb_profile.specs.First.{OneFirstDefect, EarlierCodesComeFirst, LaterCodesFollow};

use sb_step::{StepFile, one_list_of_parameters};

/// A law of files: each one that was indexed says something.
pub fn each_file_says(file: &StepFile<'_>)
    requires { IsIndexed file.now.input file.now }
    ensures { (c : Contents) × Says file.now c }
{
    one_list_of_parameters();
    let _schema = file.schema();
}

/// Laws of first defects: a file has one at most, and that of some codes is the first whatever codes
/// follow, or else the first of those that follow is.
#[inline(always)]
pub fn one_first_defect()
    ensures one { OneFirstDefect }
    ensures earlier { EarlierCodesComeFirst }
    ensures later { LaterCodesFollow }
{}
