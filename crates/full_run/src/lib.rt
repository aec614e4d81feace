//! The full kernel's run of a schedule: no view, no second stage, no recovery.
//!
//! - [`replay`]: makes the steps of a schedule as far as they exist, and says how many there were.
//! - [`Rerun`]: makes a run again one step at a time.
//! - [`laws`]: what a schedule and the number of its steps that exist say of each other.
//!
//! Below stand `guest_board`, whose step is the full step, and `run_evidence` with the definitions of a full run and of
//! lawful schedules. Above stand the commands that compare a run with its trace.
#![tactic(auto)]

ghost use Rattle.std.specs.Prelude.{◌≡◌, ◌<◌, ◌^◌, [], IfOk, length, take};
ghost use Rattle.guest_input.specs.Accepted.{IsImage, IsSetupFor};
ghost use Rattle.guest_board.specs.Board.{full_after, full_answer};
ghost use Rattle.run_evidence.specs.Config.{Config};
ghost use Rattle.run_evidence.specs.Growing.{board_of};
ghost use Rattle.full_run.specs.Replay.{config_of_full_run, IsLongest};

pub mod laws;
#[cfg(test)]
mod tests;

use fc_numbers::memory::NoMemory;
use fc_numbers::places::VcpuNo;
use guest_board::board::{Board, Full};
use guest_input::image::Image;
use guest_input::setup::Setup;
use run_evidence::laws::{boards_move, lawful_schedules_grow};
use std::alloc::Global;
use std::marker::Model;

/// What came of a schedule.
#[derive(Drop)]
pub struct Replayed {
    /// The board after the steps that were made.
    pub board: Board,
    /// How many steps were made, from the first on.
    pub made: u32,
}

/// Makes the steps of a schedule as far as they exist. The answer is how many there were.
fn run(board: &mut Board, schedule: &[VcpuNo]) -> u32
    requires { length schedule.now < 2 ^ 32 }
    ensures { (c : Config) → board.old ≡ board_of c [] → (board.new ≡ board_of c (take result schedule.now)) × IsLongest c schedule.now result }
{
    boards_move();
    lawful_schedules_grow();
    let mut made = 0;
    for i in schedule {
        match board.step_full(*i) {
            Full::Stepped(_) => made += 1,
            Full::Over => return made,
        }
    }
    made
}

/// The run of an image by a setup, in the order of a schedule: the board after the longest front part of the schedule whose
/// steps all exist, and the length of that part. An Err is want of memory.
pub fn replay(
    alloc: Global,
    image: &Image,
    setup: &Setup,
    schedule: &[VcpuNo],
) -> Result<Replayed, NoMemory>
    requires image { IsImage image.now }
    requires setup { IsSetupFor image.now setup.now }
    requires few { length schedule.now < 2 ^ 32 }
    ensures board { IfOk result (λ ran. ran.board ≡ board_of (config_of_full_run image.now setup.now) (take ran.made schedule.now)) }
    ensures longest { IfOk result (λ ran. IsLongest (config_of_full_run image.now setup.now) schedule.now ran.made) }
{
    let mut board = Board::open(alloc, image, setup)?;
    let made = run(&mut board, schedule);
    Ok(Replayed { board, made })
}

/// A run, made again one step at a time. In contracts it is its board.
#[derive(Drop)]
pub struct Rerun {
    board: Board,
}

impl Model for Rerun {
    ghost use Rattle.guest_board.specs.Board.{Seat};

    ghost Value = { Seat };

    ghost view = { λ rerun. rerun.board };
}

impl Rerun {
    /// The run of an image by a setup, before its first step. An Err is want of memory.
    pub fn open(alloc: Global, image: &Image, setup: &Setup) -> Result<Rerun, NoMemory>
        requires image { IsImage image.now }
        requires setup { IsSetupFor image.now setup.now }
        ensures { IfOk result (λ rerun. rerun ≡ board_of (config_of_full_run image.now setup.now) []) }
    {
        let board = Board::open(alloc, image, setup)?;
        Ok(Rerun { board })
    }

    /// The full step of a vCPU: the place in text that it fetched, or `Over` where the vCPU may not step, and nothing
    /// changed.
    pub fn step(&mut self, i: VcpuNo) -> Full
        ensures after { self.new ≡ full_after self.old i }
        ensures answer { result ≡ full_answer self.old i }
    {
        self.board.step_full(i)
    }

    /// The board as it stands.
    pub fn board(&self) -> &Board
        ensures { result.now ≡ self.now }
    {
        &self.board
    }
}
