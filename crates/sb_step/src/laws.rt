ghost use Rattle.sb_step.specs.Faults.{EachIsFileOrFault, FilesAreUnique, FaultsAreUnique, NoFileHasAFault};
ghost use Rattle.sb_step.specs.Params.Parameters.{EachInstanceHasParameters, ParametersAreUnique, OnlyListsSayParameters, EachListSaysOne};

use sb_lex::tokens_are_one_list;

/// Laws of the files and the faults that are defined: each input is one file or has one fault.
#[inline(always)]
pub fn one_file_or_one_fault()
    ensures exist { EachIsFileOrFault }
    ensures one_file { FilesAreUnique }
    ensures one_fault { FaultsAreUnique }
    ensures not_both { NoFileHasAFault }
{
    tokens_are_one_list();
}

/// Laws of the parameters that are defined: each instance has one list of them, and a list of the
/// grammar says one.
#[inline(always)]
pub fn one_list_of_parameters()
    ensures exist { EachInstanceHasParameters }
    ensures unique { ParametersAreUnique }
    ensures only_lists { OnlyListsSayParameters }
    ensures one_a_list { EachListSaysOne }
{
    tokens_are_one_list();
}
