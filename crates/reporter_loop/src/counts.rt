// What is counted of the closed reports together.

ghost use Rattle.std.specs.Prelude.{◌≡◌, length};
ghost use Rattle.interval_tables.specs.Rows.{merged_rows, IsInBounds};

use interval_tables::Report;

/// The report that was made last, and the total of all reports.
#[derive(Drop)]
pub struct Counts {
    /// The room that the reports take in turn.
    pub last: Report,
    /// All samples of the reports together, label by label. Its interval means nothing.
    pub total: Report,
}

impl Counts {
    /// Counts all samples of the last report in the total besides. It takes no memory.
    pub fn add_last(&mut self)
        requires rows { length self.old.last.rows ≡ length self.old.total.rows }
        requires bounds { IsInBounds self.old.total.rows }
        requires last { IsInBounds self.old.last.rows }
        requires room { IsInBounds (merged_rows self.old.total.rows self.old.last.rows) }
        ensures total { self.new.total.rows ≡ merged_rows self.old.total.rows self.old.last.rows }
        ensures interval { self.new.total.interval ≡ self.old.total.interval }
        ensures last { self.new.last ≡ self.old.last }
    {
        self.total.merge(&self.last);
    }
}
