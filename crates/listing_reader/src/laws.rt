//! How a listing's lines are read back. Nothing here runs: each function has a law as its contract.

ghost use Rattle.listing_reader.specs.Written.{HeadsAreRead, LinesAreReadInOrder, NumbersAreOneLine, ShortsAreRead, WidesAreRead, ZerosAreRead};

/// The line of a group is read as one.
pub fn heads_are_read()
    ensures { HeadsAreRead }
{}

/// The line of a run of zeros is read as so many.
pub fn zeros_are_read()
    ensures { ZerosAreRead }
{}

/// The line of a halfword is read as that halfword, whatever stands behind its digits.
pub fn shorts_are_read()
    ensures { ShortsAreRead }
{}

/// The line of 32 bits is read as its two halfwords, whatever stands behind its digits.
pub fn wides_are_read()
    ensures { WidesAreRead }
{}

/// The first of several lines is read first.
pub fn lines_are_read_in_order()
    ensures { LinesAreReadInOrder }
{}

/// A printed number has no newline.
pub fn numbers_are_one_line()
    ensures { NumbersAreOneLine }
{}
