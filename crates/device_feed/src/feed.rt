//! The devices of a run.

ghost use Rattle.std.specs.Prelude.{◌≡◌, ◌<◌, IfOk, length};
ghost use Rattle.guest_input.specs.Accepted.{IsSetup};
ghost use Rattle.device_feed.specs.Devices.{first_devices, lines_of, is_raised, soft_of, timer_of, with_soft, with_timer, due_key, with_key_taken};
ghost use Rattle.device_feed.specs.Calls.{Called, called, answered, is_known, sent};

use crate::lists::{DueKey, Levels, VCPUS_MOST, due_count, first_due, keys_of, levels_of};
use crate::masks::{are_vcpus, set_all, set_named};
use crate::sbi::{
    ALL_VCPUS, CONSOLE_GETCHAR, CONSOLE_PUTCHAR, INVALID_PARAM, IPI, NO_KEY, NOT_SUPPORTED,
    SEND_IPI, SET_TIMER, SHUTDOWN, SUCCESS, Sbi, TIME,
};
use fc_numbers::memory::NoMemory;
use fc_numbers::places::VcpuNo;
use fc_numbers::regs::{A0, A1, A6, A7, Regs};
use guest_input::setup::{Event, Setup};
use std::alloc::Global;
use std::marker::Model;

/// The pending bit of the software interrupt.
const SOFTWARE_LINE: u64 = 1 << 1;

/// The pending bit of the timer interrupt.
const TIMER_LINE: u64 = 1 << 5;

/// The pending bit of the external interrupt.
const EXTERNAL_LINE: u64 = 1 << 9;

/// The devices of a run: its events, the keys that were taken, and the software bit and the timer of each vCPU.
#[derive(Drop)]
pub struct Feed {
    events: Vec<Event>,
    levels: Vec<Levels>,
    keys: Vec<DueKey>,
    taken: usize,
    soft: Vec<bool>,
    timer: Vec<u64>,
}

impl Model for Feed {
    ghost use Rattle.device_feed.specs.Devices.{Devices};

    ghost Value = { Devices };

    ghost use Rattle.device_feed.specs.Fed.{devices_of, IsFed};

    ghost view = { devices_of };

    ghost invariant = { IsFed };
}

/// Writes the two registers of an answer.
fn answer(regs: &mut Regs, a0: u64, a1: u64)
    ensures { regs.new ≡ answered regs.old a0 a1 }
{
    regs.set(A0, a0);
    regs.set(A1, a1);
}

impl Feed {
    /// The devices at the start of a run with this setup.
    pub fn open(alloc: Global, setup: &Setup) -> Result<Feed, NoMemory>
        requires { IsSetup setup.now }
        ensures { IfOk result (λ feed. feed ≡ first_devices setup.now) }
    {
        let events = setup.events.as_slice();
        let vcpus = setup.vcpus as usize;
        Ok(Feed {
            events: Vec::from_slice(alloc, events)?,
            levels: levels_of(alloc, events)?,
            keys: keys_of(alloc, events)?,
            taken: 0,
            soft: vec![in alloc; false; vcpus]?,
            timer: vec![in alloc; u64::MAX; vcpus]?,
        })
    }

    /// Whether the external line of the vCPU is up.
    fn is_raised(&self, v: usize, clock: u64) -> bool
        requires { v < length self.now.timer }
        ensures { result ≡ is_raised self.now v clock }
    {
        let due = due_count(&self.events, clock);
        if due == 0 {
            return false;
        }
        self.levels[due - 1][v]
    }

    /// The interrupt lines of the vCPU at this clock, as bits of `sip`; 0 where there is no such vCPU.
    pub fn lines(&self, v: VcpuNo, clock: u64) -> u64
        ensures { result ≡ lines_of self.now v clock }
    {
        let v = v.0 as usize;
        if v >= self.timer.len() {
            return 0;
        }
        let software = if self.soft[v] { SOFTWARE_LINE } else { 0 };
        let timer = if self.timer[v] <= clock {
            TIMER_LINE
        } else {
            0
        };
        let external = if self.is_raised(v, clock) {
            EXTERNAL_LINE
        } else {
            0
        };
        software + timer + external
    }

    /// The software bit of the vCPU; false where there is no such vCPU.
    pub fn soft(&self, v: VcpuNo) -> bool
        ensures { result ≡ soft_of self.now v }
    {
        let v = v.0 as usize;
        v < self.soft.len() && self.soft[v]
    }

    /// The timer value of the vCPU; 0 where there is no such vCPU.
    pub fn timer(&self, v: VcpuNo) -> u64
        ensures { result ≡ timer_of self.now v }
    {
        let v = v.0 as usize;
        if v < self.timer.len() {
            self.timer[v]
        } else {
            0
        }
    }

    /// Writes the software bit of the vCPU; nothing where there is no such vCPU.
    pub fn set_soft(&mut self, v: VcpuNo, on: bool)
        ensures { self.new ≡ with_soft self.old v on }
    {
        let v = v.0 as usize;
        if v < self.soft.len() {
            self.soft[v] = on;
        }
    }

    /// Writes the timer value of the vCPU; nothing where there is no such vCPU.
    fn set_timer(&mut self, v: VcpuNo, at: u64)
        ensures { self.new ≡ with_timer self.old v at }
    {
        let v = v.0 as usize;
        if v < self.timer.len() {
            self.timer[v] = at;
        }
    }

    /// Takes the first due key that was not yet taken.
    fn take_key(&mut self, clock: u64) -> Option<u8>
        ensures value { result ≡ due_key self.old clock }
        ensures after { self.new ≡ with_key_taken self.old clock }
    {
        let key = first_due(&self.keys, self.taken, clock);
        if key.is_some() {
            self.taken += 1;
        }
        key
    }

    /// Sets the software bits of the vCPUs that the mask and its base name, and says whether all of them are vCPUs.
    fn send(&mut self, mask: u64, base: u64) -> bool
        ensures value { result ≡ is_known self.old mask base }
        ensures after { self.new ≡ sent self.old mask base }
    {
        if base == ALL_VCPUS {
            set_all(&mut self.soft);
            return true;
        }
        if !are_vcpus(self.timer.len(), mask, base) {
            return false;
        }
        set_named(&mut self.soft, mask, base);
        true
    }

    /// Answers the supervisor call of the vCPU that these registers name.
    pub fn sbi(&mut self, regs: &mut Regs, v: VcpuNo, clock: u64) -> Sbi
        ensures { let made : Called = record { devices = self.new; regs = regs.new; answer = result } in made ≡ called self.old regs.old v clock }
    {
        let a0 = regs.get(A0);
        let function = regs.get(A6);
        match regs.get(A7) {
            CONSOLE_PUTCHAR => {
                regs.set(A0, 0);
                return Sbi::Put((a0 % 256) as u8);
            }
            CONSOLE_GETCHAR => {
                let key = match self.take_key(clock) {
                    Some(byte) => byte as u64,
                    None => NO_KEY,
                };
                regs.set(A0, key);
            }
            SHUTDOWN => return Sbi::Shutdown,
            TIME if function == SET_TIMER => {
                self.set_timer(v, a0);
                answer(regs, SUCCESS, 0);
            }
            IPI if function == SEND_IPI => {
                let base = regs.get(A1);
                let error = if self.send(a0, base) {
                    SUCCESS
                } else {
                    INVALID_PARAM
                };
                answer(regs, error, 0);
            }
            _ => answer(regs, NOT_SUPPORTED, 0),
        }
        Sbi::Done
    }
}
