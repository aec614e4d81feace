//! Laws of the texts of traces.

ghost use Rattle.trace_file.specs.Laws.{WrittenIsRead, NoTextBeginsAnother, ShorterIsRefused};

/// What is written is read again as what it was.
pub fn written_is_read()
    ensures { WrittenIsRead }
{}

/// The text of one trace begins that of no other: where it does, nothing follows, and the traces are one.
pub fn no_text_begins_another()
    ensures { NoTextBeginsAnother }
{}

/// A text that breaks off is refused, wherever it does: as no trace below 9 bytes, and then as cut short.
pub fn shorter_is_refused()
    ensures { ShorterIsRefused }
{}
