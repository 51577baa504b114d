// What the definitions of this crate come to.
ghost use Rattle.lines.specs.Facts.{Facts};

// A line has at most one wait and one diagram value, the sweep goes by descending addresses, and the sample lines have
// their waits.
pub fn definitions_stand()
    ensures { Facts }
{}
