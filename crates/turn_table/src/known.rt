//! What a pass knows, what a slot holds, and what a table is opened for.

use chain_log::entry::LogEntry;
use fc_numbers::places::VcpuNo;
use guest_board::board::Board;
use guest_input::image::Image;
use guest_input::setup::Setup;
use std::collections::LinkedList;
use std::snapshot::Snapshot;
use view_file::views::Views;
use view_store::view::View;

/// What a slot holds while its value is at home.
#[derive(Drop)]
pub(crate) enum Guarded {
    /// The board, in slot 0.
    Board(Board),
    /// A view, in the slot after its number.
    View(View),
}

/// What a pass knows. It stands in contracts alone: no value of it is made.
pub struct Known {
    /// Whether the pass is still one, and was not joined to another.
    pub live: bool,
    /// The image that the table was opened for.
    pub image: Image,
    /// The setup that it was opened for.
    pub setup: Setup,
    /// The views file that it was opened for.
    pub views: Views,
    /// The word of the value that the pass has taken and not given back: 0 for the board, k + 1 for view k.
    pub holds: Option<u64>,
    /// The schedule that it has seen.
    pub seen: LinkedList<VcpuNo>,
    /// The log that it has seen of each view, by view number.
    pub logs: LinkedList<LinkedList<LogEntry>>,
    /// At each vCPU number none, or, where the pass owns it, the steps of that vCPU.
    pub counts: LinkedList<Option<u64>>,
}

/// What a table is opened for: the image, setup and views file, and the board and views at that moment.
#[derive(Drop)]
pub(crate) struct Key {
    pub image: Snapshot<Image>,
    pub setup: Snapshot<Setup>,
    pub profile: Snapshot<Views>,
    pub board: Snapshot<Board>,
    pub views: Snapshot<Vec<View>>,
}
