//! Whose turn it is.

ghost use Rattle.std.specs.Prelude.{◌≡◌, ◌<◌, ℕ, false, MatchOption, length};
ghost use Rattle.guest_board.specs.Board.{may};
ghost use Rattle.profiler.specs.RoundRobin.{IsNextInTurn};

use fc_numbers::places::VcpuNo;
use guest_board::board::Board;

/// The next vCPU in turn after the last one; None exactly where no vCPU may step.
pub(crate) fn next_in_turn(board: &Board, last: VcpuNo) -> Option<VcpuNo>
    requires { last < length board.now.state.slots }
    ensures { MatchOption result ((k : ℕ) → may board.now.rules board.now.state k ≡ false) (λ i. IsNextInTurn board.now.rules board.now.state last i) }
{
    let vcpus = board.vcpus();
    for i in last.0 + 1..vcpus {
        if board.may(VcpuNo(i)) {
            return Some(VcpuNo(i));
        }
    }
    for i in 0..last.0 + 1 {
        if board.may(VcpuNo(i)) {
            return Some(VcpuNo(i));
        }
    }
    None
}
