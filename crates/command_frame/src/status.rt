//! How the program ends, as a number.

ghost use Rattle.std.specs.Prelude.{◌≡◌};
ghost use Rattle.command_frame.specs.Lines.{number_of};

/// How the program ends. The number of each is the status that its caller sees.
#[derive(Debug, Clone, Copy, PartialEq, Eq)]
pub enum Status {
    /// The command was served, and its guest, where it runs one, shut down or made all its steps.
    Finished = 0,
    /// The words are no listed form.
    Words = 2,
    /// The image is refused.
    Image = 3,
    /// The setup is refused.
    Setup = 4,
    /// Views are refused.
    Views = 5,
    /// The script or the trace is refused: what gives the order of the steps.
    Order = 6,
    /// A file could not be read.
    Unread = 7,
    /// A file, or standard output, could not be written.
    Unwritten = 8,
    /// The command was served, and the monitor stopped its guest.
    Stopped = 9,
    /// An allocation was refused.
    NoMemory = 10,
    /// The command was served, and its comparison found a difference.
    Differs = 11,
}

impl Status {
    /// The number with which the program ends.
    pub fn number(self) -> u8
        ensures { result ≡ number_of self }
    {
        self as u8
    }
}
