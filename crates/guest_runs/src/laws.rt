//! What is true of the log of each run. Nothing here runs: the function has a law as its contract.

ghost use Rattle.guest_runs.specs.Log.{JustifiedEntriesArePrintable};

/// An entry that is justified in a run can be printed: the places that it names are in text, and its group is one of the
/// text's.
pub fn justified_entries_are_printable()
    ensures { JustifiedEntriesArePrintable }
{}
