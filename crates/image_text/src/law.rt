//! That a report tells its image.

ghost use Rattle.image_text.specs.Report.{ReportDetermines};

/// Two images that can be read back and have the same report are the same: how they were made, the bounds, the map, the
/// ports and the written words. The function does nothing; its contract is the law.
pub fn report_determines_image()
    ensures { ReportDetermines }
{}
