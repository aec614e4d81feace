//! The table and its passes.

ghost use Rattle.std.specs.Prelude.{◌≡◌, ◌≤◌, [], true, suc, vec_capacity};
ghost use Rattle.run_evidence.specs.Growing.{views_count};
ghost use Rattle.turn_table.specs.Steps.{carried, opened_for};

use crate::known::{Guarded, Key, Known};
use crate::rule::Sharing;
use atomic_table::{Seat, Table};
use std::alloc::Global;
use view_store::view::View;

/// A board and views that threads take in turns.
///
/// `table` has the words and the slots; `room` is an empty row with room for every view, so that closing takes no
/// memory.
#[derive(Drop)]
pub struct Turns {
    pub(crate) table: Table<Option<Guarded>, Known, Key, Sharing, Global>,
    pub(crate) room: Vec<View>,
    ghost words: { table.shared.table_id.words ≡ suc (views_count (opened_for table.shared.key)) },
    ghost slots: { table.shared.table_id.slots ≡ suc (views_count (opened_for table.shared.key)) },
    ghost empty: { room.items ≡ [] },
    ghost roomy: { views_count (opened_for table.shared.key) ≤ vec_capacity room },
}

/// A thread's right to take the board or a view. It has no bytes. It owns vCPU numbers, and its own vCPU is the least
/// of them. A pass may be dropped; its table can then not be closed.
#[derive(Drop)]
pub struct Pass {
    pub(crate) seat: Seat<Option<Guarded>, Known>,
    ghost is_live: { seat.me.0.live ≡ true },
    ghost carries: { seat.me.1 ≡ carried seat.me.0.holds },
}
