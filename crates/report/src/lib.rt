// The morning report of a table. The definitions are in specs/.
#![tactic(auto)]

ghost use Rattle.report.specs.Claims.{ReportAddsUp, ReportRising, ReportCase, DigitsReadBack, ReportFits};

// What holds of the definitions of the report.
pub fn claims()
    ensures { ReportAddsUp × ReportRising × ReportCase × DigitsReadBack × ReportFits }
{}
