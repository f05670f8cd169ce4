//! Laws over the definitions. Each is the contract of a function that does nothing.
#![tactic(auto, using(crate::proofs::Values::one_name))]

ghost use Rattle.command_line.specs.Program.{ImportIsNoSheet, ImportIsNoStream, MatchReadsNothing, ReportReadsNothing};
ghost use Rattle.command_line.specs.Program.{CheckReadsNothing, ServeReadsNothing};

/// Words that ask for an import do not ask for a sheet, so an import does not read standard input.
pub fn import_is_no_sheet()
    ensures { ImportIsNoSheet }
{}

/// Words that ask for an import do not ask for a stream, which would read standard input as well.
pub fn import_is_no_stream()
    ensures { ImportIsNoStream }
{}

/// Words that ask for a match ask for neither a sheet nor a stream, so a match does not read standard input.
pub fn match_reads_nothing()
    ensures { MatchReadsNothing }
{}

/// Words that ask for a report ask for neither a sheet nor a stream, so a report does not read standard input.
pub fn report_reads_nothing()
    ensures { ReportReadsNothing }
{}

/// Words that ask to serve connections ask for neither a sheet nor a stream, so serving does not read standard input.
pub fn serve_reads_nothing()
    ensures { ServeReadsNothing }
{}

/// Words that ask for a check ask for neither a sheet nor a stream, so a check does not read standard input.
pub fn check_reads_nothing()
    ensures { CheckReadsNothing }
{}
