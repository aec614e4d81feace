//! The rule of the table, and the names of its steps.

ghost use Rattle.turn_table.specs.Rule.{IsShared, spent};
ghost use Rattle.turn_table.specs.Steps.{first_known_by, opened_for, tried_board, tried_view, gave, without_greatest, greatest_alone, joined_known, looked};

use crate::known::{Guarded, Key, Known};
use atomic_table::{Join, Play, Split, TableRule};

/// The rule that holds between any two steps.
pub(crate) struct Sharing;

impl TableRule<Option<Guarded>, Known, Key> for Sharing {
    ghost holds = { λ key. IsShared (opened_for key) };

    ghost first = { first_known_by };
}

/// Takes the board, where it is at home.
pub(crate) struct TakeBoard;

impl Play<Option<Guarded>, Known> for TakeBoard {
    ghost then = { tried_board };
}

/// Takes a view, where it is at home.
pub(crate) struct TakeView;

impl Play<Option<Guarded>, Known> for TakeView {
    ghost then = { tried_view };
}

/// Gives back what was taken.
pub(crate) struct Give;

impl Play<Option<Guarded>, Known> for Give {
    ghost then = { gave };
}

/// Makes two passes of one.
pub(crate) struct Apart;

impl Split<Known> for Apart {
    ghost left = { without_greatest };

    ghost right = { greatest_alone };
}

/// Makes one pass of two.
pub(crate) struct Together;

impl Join<Known> for Together {
    ghost both = { joined_known };

    ghost spent = { spent };
}

/// Changes nothing.
pub(crate) struct Look;

impl Play<Option<Guarded>, Known> for Look {
    ghost then = { looked };
}
