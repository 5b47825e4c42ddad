//! What holds of the definitions of a report.

ghost use Rattle.reception_report.specs.Missing.{RunsAreOfTheMissing};

/// The numbers that are told of a module as missing are those of its blocks that are missing: for
/// every module, the number of a block lies in one of the runs exactly where the block is missing,
/// and between each two runs there is a block.
pub fn runs_are_of_the_missing()
    ensures { RunsAreOfTheMissing }
{}
