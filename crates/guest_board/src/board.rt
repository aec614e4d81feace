//! The board and its steps.

ghost use Rattle.std.specs.Prelude.{◌≡◌, ◌+◌, ◌-◌, ◌∷◌, ◌++◌, [], ◌<◌, ◌≤◌, ◌^◌, ℕ, None, Some, true, IfOk, length, slice_index_or, slice_set, vec_len, vec_capacity, option_copied};
ghost use Rattle.gstage.specs.Stage.{IsFor};
ghost use Rattle.guest_ram.specs.Ram.{CanStore};
ghost use Rattle.sv39_walk.specs.Cache.{Fits, KeepsFits};
ghost use Rattle.rv_step.specs.Site.{Site};
ghost use Rattle.rv_step.specs.Kept.{KeepsText};
ghost use Rattle.fc_numbers.specs.Numbers.{get_reg};
ghost use Rattle.switch_hook.specs.Hook.{app_name_of};
ghost use Rattle.guest_board.specs.Step.{made_by, place_of};
ghost use Rattle.guest_board.specs.Housed.{left_total};
ghost use Rattle.guest_board.specs.Board.{broken_by, depth_of, full_after, full_answer, is_same_place, made_of, may, moved, name_of, next_of, next_start, no_slot, said, slot_after, step_of, stepped_by, vcpu_of};
ghost use Rattle.guest_input.specs.Accepted.{IsImage, IsSetupFor};
ghost use Rattle.guest_input.specs.declared.limits.TheConstants.{STEPS_MOST};
ghost use Rattle.guest_board.specs.First.{first_seat};
ghost use Rattle.guest_board.specs.Seen.{verdict_of, after_verdict, seen_by, trapped_at};

use crate::open::{new_caches, start_ram, start_slots};
use crate::rules::{Rules, rules_of};
use crate::seen::{Seen, Verdict, Windows, judge};
use crate::slot::{Slot, break_others, deepen, end_by, note_end};
use crate::step::{CarriedOut, StepStart, begin, carry_out, place_fetched};
use chain_log::chain::chain_of;
use chain_log::entry::Trapped;
use device_feed::feed::Feed;
use fc_numbers::machine::End;
use fc_numbers::memory::NoMemory;
use fc_numbers::name::Name;
use fc_numbers::places::{Gpa, VcpuNo, ViewNo};
use gstage::stage::{Flat, SecondStage};
use guest_input::image::Image;
use guest_input::ranges::copy_of;
use guest_input::setup::Setup;
use guest_ram::GuestRam;
use rv_step::vcpu::Vcpu;
use std::alloc::Global;
use std::marker::Model;
use sv39_walk::cache::WalkCache;
use switch_hook::app_name;

/// The vCPUs, the memory, the devices, the console and the schedule of a run. In contracts it is the rules of the run, the
/// state of the machine, and the schedule of the steps so far.
#[derive(Drop)]
pub struct Board {
    pub(crate) rules: Rules,
    pub(crate) slots: Vec<Slot>,
    pub(crate) ram: GuestRam,
    /// For each vCPU the translations that it made last.
    pub(crate) caches: Vec<WalkCache>,
    pub(crate) feed: Feed,
    pub(crate) console: Vec<u8>,
    pub(crate) schedule: Vec<VcpuNo>,
    pub(crate) end: Option<End>,
}

impl Model for Board {
    ghost use Rattle.guest_board.specs.Board.{Seat};

    ghost Value = { Seat };

    ghost use Rattle.guest_board.specs.Housed.{seat_of, IsHoused};

    ghost view = { seat_of };

    ghost invariant = { IsHoused };
}

/// What a full step did: the place in text that it fetched, if it did; or nothing, since the vCPU may not step.
#[derive(Debug, Clone, Copy)]
pub enum Full {
    Stepped(Option<Gpa>),
    Over,
}

fn flat(ram: &GuestRam) -> Flat
    ensures { IsFor result.text.items result.ram ram.now }
{
    Flat {
        text: copy_of(ram.text()),
        ram: ram.span(),
    }
}

fn push_byte(bytes: &mut Vec<u8>, byte: u8)
    requires { vec_len bytes.old < vec_capacity bytes.old }
    ensures items { bytes.new.items ≡ bytes.old.items ++ byte ∷ [] }
    ensures len { vec_len bytes.new ≡ vec_len bytes.old + 1 }
    ensures room { vec_capacity bytes.old ≤ vec_capacity bytes.new }
{
    match bytes.push(byte) {
        Ok(()) => {}
        Err(_) => unreachable!(),
    }
}

fn push_vcpu(schedule: &mut Vec<VcpuNo>, i: VcpuNo)
    requires { vec_len schedule.old < vec_capacity schedule.old }
    ensures items { schedule.new.items ≡ schedule.old.items ++ i ∷ [] }
    ensures len { vec_len schedule.new ≡ vec_len schedule.old + 1 }
    ensures room { vec_capacity schedule.old ≤ vec_capacity schedule.new }
{
    match schedule.push(i) {
        Ok(()) => {}
        Err(_) => unreachable!(),
    }
}

fn say(console: &mut Vec<u8>, put: Option<u8>)
    requires { vec_len console.old < vec_capacity console.old }
    ensures items { console.new.items ≡ said console.old.items put }
    ensures len { vec_len console.new ≤ vec_len console.old + 1 }
    ensures room { vec_capacity console.old ≤ vec_capacity console.new }
{
    match put {
        None => {}
        Some(byte) => push_byte(console, byte),
    }
}

/// Whether a step that begins so fetches the hook's place.
fn is_at_hook(rules: &Rules, start: &StepStart) -> bool
    ensures { result ≡ is_same_place (place_of start.now) rules.now.hook }
{
    match (place_fetched(start), rules.hook) {
        (Some(place), Some(hook)) => place.0 == hook.0,
        _ => false,
    }
}

/// Puts down the name that the hook reads. So a step that is no hook step moves no name.
#[cold]
#[inline(never)]
fn read_name(rules: &Rules, vcpu: &Vcpu, ram: &GuestRam, name: &mut Option<Name>)
    ensures { name.new ≡ app_name_of ram.now vcpu.now.csr (get_reg vcpu.now.regs 11) rules.now.name_at }
{
    *name = app_name(ram, &vcpu.csr, vcpu.regs.get(11), rules.name_at);
}

/// A step that has begun: the number of the vCPU's slot, what the step begins with, and the clock.
#[derive(Clone, Copy)]
struct StepBegun {
    at: usize,
    start: StepStart,
    clock: u64,
}

/// The rest of a step of a vCPU, and what is counted beside it.
#[tactic(auto, unfolding(crate::specs::Board::slot_after))]
fn carry_slot<S: SecondStage>(
    rules: &Rules,
    begun: StepBegun,
    slot: &mut Slot,
    ram: &mut GuestRam,
    cache: &mut WalkCache,
    feed: &mut Feed,
    stage: &S,
) -> CarriedOut
    requires stage { IsFor (S.text stage.now) (S.ram stage.now) ram.old }
    requires stamps { CanStore ram.old }
    requires fits { Fits ram.old cache.old }
    requires made { slot.old.made < 2 ^ 32 - 1 }
    requires depth { slot.old.depth < 2 ^ 32 - 1 }
    ensures slot { let s : Site = record { vcpu = slot.old.vcpu; ram = ram.old; devices = feed.old } in slot.new ≡ slot_after rules.now s slot.old begun.start (made_by begun.start begun.clock s) }
    ensures ram { let s : Site = record { vcpu = slot.old.vcpu; ram = ram.old; devices = feed.old } in ram.new ≡ (made_by begun.start begun.clock s).ram }
    ensures devices { let s : Site = record { vcpu = slot.old.vcpu; ram = ram.old; devices = feed.old } in feed.new ≡ (made_by begun.start begun.clock s).devices }
    ensures put { let s : Site = record { vcpu = slot.old.vcpu; ram = ram.old; devices = feed.old } in result.put ≡ (made_by begun.start begun.clock s).put }
    ensures left { let s : Site = record { vcpu = slot.old.vcpu; ram = ram.old; devices = feed.old } in result.left ≡ (made_by begun.start begun.clock s).left }
    ensures keeps { KeepsText ram.old ram.new }
    ensures fits { Fits ram.new cache.new }
    ensures others { KeepsFits ram.old ram.new }
{
    // Memory is laid out lawfully, so a step keeps its text; the call says so.
    let _laid = ram.text();
    let at_hook = is_at_hook(rules, &begun.start);
    let mut met = None;
    if at_hook {
        read_name(rules, &slot.vcpu, ram, &mut met);
    }
    let done = carry_out(
        begun.start,
        &mut slot.vcpu,
        ram,
        cache,
        feed,
        stage,
        begun.clock,
    );
    slot.made += 1;
    if at_hook && done.left.end.is_none() {
        slot.name = met;
        slot.depth = 0;
    } else {
        slot.depth = deepen(done.left.nesting, slot.depth);
    }
    done
}

/// The same in the slots of all, where it breaks the reservations that the others have of what it wrote.
fn carry_at<S: SecondStage>(
    rules: &Rules,
    begun: StepBegun,
    slots: &mut [Slot],
    ram: &mut GuestRam,
    cache: &mut WalkCache,
    feed: &mut Feed,
    stage: &S,
) -> CarriedOut
    requires inside { begun.at < length slots.old }
    requires stage { IsFor (S.text stage.now) (S.ram stage.now) ram.old }
    requires stamps { CanStore ram.old }
    requires fits { Fits ram.old cache.old }
    requires steps { (slice_index_or slots.old begun.at no_slot).made < rules.now.steps }
    requires depths { (k : ℕ) → (slice_index_or slots.old k no_slot).depth ≤ begun.clock }
    requires low { begun.clock < 2 ^ 32 - 1 }
    ensures slots { let old = slice_index_or slots.old begun.at no_slot in let s : Site = record { vcpu = old.vcpu; ram = ram.old; devices = feed.old } in slots.new ≡ slice_set (broken_by (made_by begun.start begun.clock s).left.wrote slots.old) begun.at (slot_after rules.now s old begun.start (made_by begun.start begun.clock s)) }
    ensures ram { let s : Site = record { vcpu = (slice_index_or slots.old begun.at no_slot).vcpu; ram = ram.old; devices = feed.old } in ram.new ≡ (made_by begun.start begun.clock s).ram }
    ensures devices { let s : Site = record { vcpu = (slice_index_or slots.old begun.at no_slot).vcpu; ram = ram.old; devices = feed.old } in feed.new ≡ (made_by begun.start begun.clock s).devices }
    ensures put { let s : Site = record { vcpu = (slice_index_or slots.old begun.at no_slot).vcpu; ram = ram.old; devices = feed.old } in result.put ≡ (made_by begun.start begun.clock s).put }
    ensures left { let s : Site = record { vcpu = (slice_index_or slots.old begun.at no_slot).vcpu; ram = ram.old; devices = feed.old } in result.left ≡ (made_by begun.start begun.clock s).left }
    ensures keeps { KeepsText ram.old ram.new }
    ensures fits { Fits ram.new cache.new }
    ensures others { KeepsFits ram.old ram.new }
    ensures len { length slots.new ≡ length slots.old }
    ensures one_less { left_total rules.now.steps slots.new + 1 ≡ left_total rules.now.steps slots.old }
    ensures depths { (k : ℕ) → (slice_index_or slots.new k no_slot).depth ≤ begun.clock + 1 }
{
    let at = begun.at;
    let CarriedOut { left, put } = carry_slot(
        rules,
        begun,
        &mut slots[at],
        ram,
        cache,
        feed,
        stage,
    );
    break_others(slots, at, left.wrote);
    CarriedOut { left, put }
}

impl Board {
    /// The board before the first step of a run of this image by this setup. Console and schedule take room for every
    /// step here, so that no step takes memory.
    #[tactic(auto, unfolding(crate::specs::First::first_state), using(crate::proofs::Started::all_left, crate::proofs::Started::no_depth, crate::proofs::Started::no_stamp, crate::proofs::Started::few_slots))]
    pub fn open(alloc: Global, image: &Image, setup: &Setup) -> Result<Board, NoMemory>
        requires image { IsImage image.now }
        requires setup { IsSetupFor image.now setup.now }
        ensures { IfOk result (λ board. board ≡ first_seat image.now setup.now) }
    {
        let total = setup.vcpus as usize * setup.steps as usize;
        let slots = start_slots(alloc, image.entry, &setup.start, setup.vcpus)?;
        let ram = start_ram(alloc, image, setup)?;
        let feed = Feed::open(alloc, setup)?;
        let caches = new_caches(alloc, setup.vcpus)?;
        let console = Vec::with_capacity(alloc, total)?;
        let schedule = Vec::with_capacity(alloc, total)?;
        Ok(Board {
            rules: rules_of(image, setup),
            slots,
            ram,
            caches,
            feed,
            console,
            schedule,
            end: None,
        })
    }

    /// How many steps were made.
    pub fn clock(&self) -> u64
        ensures clock { result ≡ self.now.state.clock }
        ensures schedule { result ≡ length self.now.schedule }
        ensures few { result ≤ STEPS_MOST }
    {
        self.schedule.len() as u64
    }

    /// How the run ended, if it has.
    pub fn end(&self) -> Option<End>
        ensures { result ≡ self.now.state.end }
    {
        self.end
    }

    /// How many vCPUs there are.
    pub fn vcpus(&self) -> u8
        ensures { result ≡ length self.now.state.slots }
    {
        self.slots.len() as u8
    }

    /// How many steps the vCPU made.
    pub fn steps_of(&self, i: VcpuNo) -> u32
        requires { i < length self.now.state.slots }
        ensures { result ≡ made_of self.now.state i }
    {
        self.slots[i.0 as usize].made
    }

    /// The app name of the vCPU, if it has one.
    pub fn name_of(&self, i: VcpuNo) -> Option<&Name>
        requires { i < length self.now.state.slots }
        ensures { option_copied result ≡ name_of self.now.state i }
    {
        self.slots[i.0 as usize].name.as_ref()
    }

    /// The depth of traps of the vCPU.
    pub fn depth_of(&self, i: VcpuNo) -> u32
        requires { i < length self.now.state.slots }
        ensures { result ≡ depth_of self.now.state i }
    {
        self.slots[i.0 as usize].depth
    }

    /// The vCPU.
    pub fn vcpu(&self, i: VcpuNo) -> &Vcpu
        requires { i < length self.now.state.slots }
        ensures { result.now ≡ vcpu_of self.now.state i }
    {
        &self.slots[i.0 as usize].vcpu
    }

    /// The memory.
    pub fn ram(&self) -> &GuestRam
        ensures { result.now ≡ self.now.state.ram }
    {
        &self.ram
    }

    /// The devices.
    pub fn feed(&self) -> &Feed
        ensures { result.now ≡ self.now.state.devices }
    {
        &self.feed
    }

    /// The bytes that the guest wrote.
    pub fn console(&self) -> &[u8]
        ensures { result.now ≡ self.now.state.console }
    {
        &self.console
    }

    /// The vCPUs that stepped, in order.
    pub fn schedule(&self) -> &[VcpuNo]
        ensures { result.now ≡ self.now.schedule }
    {
        &self.schedule
    }

    /// Whether the vCPU may step: the run has not ended, and it has steps left.
    pub fn may(&self, i: VcpuNo) -> bool
        ensures { result ≡ may self.now.rules self.now.state i }
    {
        let at = i.0 as usize;
        at < self.slots.len() && self.end.is_none() && self.slots[at].made < self.rules.steps
    }

    /// What the next step of vCPU i begins with.
    fn next_start<S: SecondStage>(&mut self, i: VcpuNo, stage: &S) -> StepStart
        requires inside { i < length self.old.state.slots }
        requires stage { IsFor (S.text stage.now) (S.ram stage.now) self.old.state.ram }
        ensures value { result ≡ next_start self.old.state i }
        ensures stays { self.new ≡ self.old }
    {
        let clock = self.clock();
        let at = i.0 as usize;
        begin(
            &self.slots[at].vcpu,
            &self.ram,
            &mut self.caches[at],
            &self.feed,
            stage,
            clock,
        )
    }

    /// The rest of a step of vCPU i that begins so.
    #[tactic(auto, unfolding(crate::specs::Board::after_made))]
    fn go_on<S: SecondStage>(&mut self, i: VcpuNo, start: StepStart, stage: &S)
        requires may { may self.old.rules self.old.state i ≡ true }
        requires stage { IsFor (S.text stage.now) (S.ram stage.now) self.old.state.ram }
        ensures after { self.new ≡ moved self.old i (stepped_by self.old.rules self.old.state i start) }
        ensures keeps { KeepsText self.old.state.ram self.new.state.ram }
    {
        let at = i.0 as usize;
        let clock = self.clock();
        let begun = StepBegun { at, start, clock };
        let done = carry_at(
            &self.rules,
            begun,
            &mut self.slots,
            &mut self.ram,
            &mut self.caches[at],
            &mut self.feed,
            stage,
        );
        say(&mut self.console, done.put);
        push_vcpu(&mut self.schedule, i);
        note_end(
            &mut self.end,
            end_by(&self.rules, &self.slots, at, done.left.end),
        );
    }

    /// One step of the full machine, which reads its instruction from the original memory. Kernel text and the size of
    /// memory stay.
    #[tactic(auto, unfolding(crate::specs::Board::step_of, crate::specs::Board::next_of))]
    pub fn step_full(&mut self, i: VcpuNo) -> Full
        ensures after { self.new ≡ full_after self.old i }
        ensures answer { result ≡ full_answer self.old i }
        ensures keeps { KeepsText self.old.state.ram self.new.state.ram }
    {
        if !self.may(i) {
            return Full::Over;
        }
        let stage = flat(&self.ram);
        let start = self.next_start(i, &stage);
        let place = place_fetched(&start);
        self.go_on(i, start, &stage);
        Full::Stepped(place)
    }

    /// The stage of translation that compares a place with the text and the RAM of the board.
    pub fn flat(&self) -> Flat
        ensures { IsFor result.text.items result.ram self.now.state.ram }
    {
        flat(&self.ram)
    }

    /// What vCPU i, which may step, does by these windows.
    #[tactic(auto, unfolding(crate::specs::Seen::verdict_of))]
    fn verdict<S: SecondStage>(&mut self, i: VcpuNo, seen: &Windows, stage: &S) -> Verdict
        requires may { may self.old.rules self.old.state i ≡ true }
        requires stage { IsFor (S.text stage.now) (S.ram stage.now) self.old.state.ram }
        ensures value { result ≡ verdict_of self.old.rules self.old.state i seen.now }
        ensures stays { self.new ≡ self.old }
    {
        let start = self.next_start(i, stage);
        judge(self.ram.text(), seen, start)
    }

    /// What stands at a trap of vCPU i on the zero at a place of text: the clock, the place and the call chain.
    #[cold]
    #[inline(never)]
    pub fn trapped(&self, i: VcpuNo, view: ViewNo, place: Gpa) -> Trapped
        requires { i < length self.now.state.slots }
        ensures { result ≡ trapped_at self.now.state i view place }
    {
        let vcpu = self.vcpu(i);
        let chain = chain_of(&self.ram, &vcpu.csr, vcpu.mode, &vcpu.regs);
        Trapped {
            view,
            vcpu: i,
            at: self.clock() as u32,
            pc: place,
            chain,
        }
    }

    /// One step by the windows that a lane holds of a view, whatever is in them: a step, a need of a line, or a trap on
    /// a zero outside the cleared range; all but a step leave the board as it was. Kernel text and the size of memory
    /// stay, so the stage fits the board after the step too.
    #[tactic(auto, unfolding(crate::specs::Seen::verdict_of, crate::specs::Seen::after_verdict))]
    pub fn step_seen<S: SecondStage>(&mut self, i: VcpuNo, seen: &Windows, stage: &S) -> Seen
        requires stage { IsFor (S.text stage.now) (S.ram stage.now) self.old.state.ram }
        ensures after { self.new ≡ after_verdict self.old i (verdict_of self.old.rules self.old.state i seen.now) }
        ensures answer { result ≡ seen_by self.old.rules (verdict_of self.old.rules self.old.state i seen.now) }
        ensures keeps { KeepsText self.old.state.ram self.new.state.ram }
        ensures stage { IsFor (S.text stage.now) (S.ram stage.now) self.new.state.ram }
    {
        if !self.may(i) {
            return Seen::Over;
        }
        self.step_ready(i, seen, stage)
    }

    /// The same of a vCPU that may step.
    #[inline(always)]
    #[tactic(auto, unfolding(crate::specs::Seen::after_verdict))]
    pub fn step_ready<S: SecondStage>(&mut self, i: VcpuNo, seen: &Windows, stage: &S) -> Seen
        requires may { may self.old.rules self.old.state i ≡ true }
        requires stage { IsFor (S.text stage.now) (S.ram stage.now) self.old.state.ram }
        ensures after { self.new ≡ after_verdict self.old i (verdict_of self.old.rules self.old.state i seen.now) }
        ensures answer { result ≡ seen_by self.old.rules (verdict_of self.old.rules self.old.state i seen.now) }
        ensures keeps { KeepsText self.old.state.ram self.new.state.ram }
        ensures stage { IsFor (S.text stage.now) (S.ram stage.now) self.new.state.ram }
    {
        match self.verdict(i, seen, stage) {
            Verdict::Idle => Seen::Over,
            Verdict::Needs(line) => Seen::Need(line),
            Verdict::Zeroes(place) => Seen::Zero(place),
            Verdict::Goes(start) => {
                let hooked = is_at_hook(&self.rules, &start);
                self.go_on(i, start, stage);
                Seen::Stepped { hooked }
            }
        }
    }
}
