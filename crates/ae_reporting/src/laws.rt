// What is so of the answers of reports.
ghost use Rattle.ae_reporting.specs.Laws.{BytesAreReportOrRefused, DamagedHasNone, HasAnswer, HasOneAnswer, ImageHasOneAnswer, LogIsReported, ReportIsOfLog};

/// Whatever stands, is asked for and is read has just one answer, and so has an image of which no file is damaged.
pub fn reports_have_one_answer()
    ensures bytes { BytesAreReportOrRefused }
    ensures some { HasAnswer }
    ensures one { HasOneAnswer }
    ensures image { ImageHasOneAnswer }
    ensures damaged { DamagedHasNone }
{}

/// On an image that stands for a log the answer is that of what stands after the log.
pub fn reports_are_of_logs()
    ensures reported { LogIsReported }
    ensures of_log { ReportIsOfLog }
{}
