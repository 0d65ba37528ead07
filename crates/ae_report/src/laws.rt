// A law of running reports.
ghost use Rattle.ae_report.specs.Laws.{GoodReportsFit};

/// Of what a report that was read computes, each operand has the kind that its operator or word takes.
pub fn good_reports_fit()
    ensures { GoodReportsFit }
{}
