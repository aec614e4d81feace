//! One instruction, after its fetch.

ghost use Rattle.std.specs.Prelude.{◌≡◌, None};
ghost use Rattle.gstage.specs.Stage.{IsFor};
ghost use Rattle.guest_ram.specs.Ram.{CanStore};
ghost use Rattle.sv39_walk.specs.Cache.{Fits, KeepsFits};
ghost use Rattle.rv_step.specs.Site.{Outcome, Site};
ghost use Rattle.rv_step.specs.Executed.{done_by, did};

use crate::arithmetic::{do_alu, do_branch, do_jump, do_nothing, do_put};
use crate::causes::BREAKPOINT;
use crate::memory::{do_amo, do_conditional, do_load, do_reserve, do_store};
use crate::system::{do_call, do_csr, do_fence, do_return};
use crate::vcpu::{Effect, Vcpu, address, relative};
use device_feed::feed::Feed;
use gstage::stage::SecondStage;
use guest_ram::GuestRam;
use rv_decode::Inst;
use rv_kinds::{CsrAccess, Jump, JumpRegister, Kind, StoreConditional, UpperImmediate, kind_of};
use sv39_walk::cache::WalkCache;

/// Executes one instruction of `len` bytes at the vCPU's pc. A byte for the console is left in `put`, and None where
/// there is none. The stage is one for this memory, every page has room for the count of one more store, and the cache
/// fits the memory. Afterwards it fits again, and so does every other cache that did.
///
/// Where the answer is a trap or an end, nothing but `put` and the cache has changed; the trap is left to the caller, and
/// so are the bits of an illegal instruction and other vCPUs' reservations of the place that was written.
#[tactic(auto, unfolding(crate::specs::Executed::did, crate::specs::Executed::done_by))]
pub fn execute<S: SecondStage>(
    inst: &Inst,
    len: u8,
    vcpu: &mut Vcpu,
    ram: &mut GuestRam,
    cache: &mut WalkCache,
    feed: &mut Feed,
    stage: &S,
    put: &mut Option<u8>,
    clock: u64,
) -> Effect
    requires stage { IsFor (S.text stage.now) (S.ram stage.now) ram.old }
    requires stamp { CanStore ram.old }
    requires fits { Fits ram.old cache.old }
    ensures made { let made : Outcome = record { vcpu = vcpu.new; ram = ram.new; devices = feed.new; put = put.new; effect = result }
        in let s : Site = record { vcpu = vcpu.old; ram = ram.old; devices = feed.old }
        in made ≡ did inst.now len clock s }
    ensures fits { Fits ram.new cache.new }
    ensures others { KeepsFits ram.old ram.new }
{
    *put = None;
    match kind_of(inst) {
        Kind::Alu(alu) => do_alu(vcpu, len, alu),
        Kind::Branch(branch) => do_branch(vcpu, len, branch),
        Kind::Load(load) => do_load(vcpu, ram, cache, stage, len, load),
        Kind::Store(store) => do_store(vcpu, ram, cache, stage, len, store),
        Kind::Lui(UpperImmediate { rd, imm }) => do_put(vcpu, len, rd, imm.cast_unsigned()),
        Kind::Auipc(UpperImmediate { rd, imm }) => {
            let x = relative(vcpu, imm);
            do_put(vcpu, len, rd, x)
        }
        Kind::Jal(Jump { rd, imm }) => {
            let to = relative(vcpu, imm);
            do_jump(vcpu, len, rd, to)
        }
        Kind::Jalr(JumpRegister { rd, rs1, imm }) => {
            let to = address(vcpu, rs1, imm) & 0xffff_ffff_ffff_fffe;
            do_jump(vcpu, len, rd, to)
        }
        Kind::Nothing => do_nothing(vcpu, len),
        Kind::Call => do_call(vcpu, feed, len, clock, put),
        Kind::Break => Effect::Trap {
            cause: BREAKPOINT,
            tval: vcpu.pc.0,
        },
        Kind::Return => do_return(vcpu),
        Kind::FenceVma => do_fence(vcpu, len),
        Kind::Csr {
            op,
            rd,
            csr,
            source,
        } => do_csr(
            vcpu,
            feed,
            len,
            CsrAccess {
                op,
                rd,
                csr,
                source,
            },
            clock,
        ),
        Kind::Reserve(reserve) => do_reserve(vcpu, ram, cache, stage, len, reserve),
        Kind::Conditional {
            width,
            rd,
            rs1,
            rs2,
        } => {
            do_conditional(
                vcpu,
                ram,
                cache,
                stage,
                len,
                StoreConditional {
                    width,
                    rd,
                    rs1,
                    rs2,
                },
            )
        }
        Kind::Amo(amo) => do_amo(vcpu, ram, cache, stage, len, amo),
    }
}
