//! Laws of the lines of a listing. Each is the contract of a function that does nothing.

ghost use Rattle.rv_line.specs.Laws.{ListingIsLine, ListingReads};

/// The line of a listing for a word says that word again, whatever labels there are and wherever the line stands, and
/// has no label.
pub fn listing_reads()
    ensures { ListingReads }
{}

/// The line of a listing is one line: neither a line feed nor a carriage return stands in it.
pub fn listing_is_line()
    ensures { ListingIsLine }
{}
