//! Examples that the definitions compute: strings, numbers, members, values, results and commands in JSON, and what commands refer to.

ghost use Rattle.wast_script_json.specs.WorkedJson.{WorkedStrings, WorkedMembers};
ghost use Rattle.wast_script_json.specs.WorkedValues.{WorkedValues, WorkedResults};
ghost use Rattle.wast_script_json.specs.WorkedCommands.{WorkedCommands};
ghost use Rattle.wast_script_json.specs.WorkedReferences.{WorkedReferences};

/// States the strings of some texts.
#[tactic(auto, using(crate::proofs::WorkedJson::strings))]
pub(crate) fn strings()
    ensures { WorkedStrings }
{}

/// States some numbers and members.
#[tactic(auto, using(crate::proofs::WorkedJson::members))]
pub(crate) fn members()
    ensures { WorkedMembers }
{}

/// States some values.
#[tactic(auto, using(crate::proofs::WorkedValues::values))]
pub(crate) fn values()
    ensures { WorkedValues }
{}

/// States the results of some assertions.
#[tactic(auto, using(crate::proofs::WorkedValues::results))]
pub(crate) fn results()
    ensures { WorkedResults }
{}

/// States some commands.
#[tactic(auto, using(crate::proofs::WorkedCommands::commands))]
pub(crate) fn commands()
    ensures { WorkedCommands }
{}

/// States what some commands refer to.
#[tactic(auto, using(crate::proofs::WorkedReferences::references))]
pub(crate) fn references()
    ensures { WorkedReferences }
{}
