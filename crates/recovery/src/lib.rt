//! What a trap on a missing function asks for: the group of its place.
//!
//! Promised: the group is that of the place by the table of groups, and the log entry is the trap with that group.
//!
//! It stands on `function_table` and `chain_log`. The lanes of the vCPUs look a trap up here before they mend a view.
//! Nothing here changes a view.
#![tactic(auto)]

ghost use Rattle.std.specs.Prelude.{◌≡◌, ◌<◌, true};
ghost use Rattle.function_table.specs.Groups.{groups_count, in_groups_text};
ghost use Rattle.recovery.specs.Recovery.{looked_of};

use chain_log::entry::{LogEntry, Trapped};
use fc_numbers::places::GroupNo;
use function_table::table::Table;

/// The group that a trap asks for, and the entry that logs it.
#[derive(Drop)]
pub struct Looked {
    pub group: GroupNo,
    pub entry: LogEntry,
}

/// Looks up the group of a trap's place, which is in text.
pub fn look(table: &Table, t: Trapped) -> Looked
    requires { in_groups_text table.now t.pc ≡ true }
    ensures value { result ≡ looked_of table.now t }
    ensures group { result.group < groups_count table.now }
{
    let Some(group) = table.group_of(t.pc) else {
        unreachable!()
    };
    Looked {
        group,
        entry: LogEntry {
            view: t.view,
            group,
            vcpu: t.vcpu,
            at: t.at,
            pc: t.pc,
            chain: t.chain,
        },
    }
}

#[cfg(test)]
mod tests;
