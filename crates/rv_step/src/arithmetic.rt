//! Arithmetic, jumps and branches, and instructions that only go on.

ghost use Rattle.std.specs.Prelude.{◌≡◌, ◌+◌, ◌%◌, ◌^◌, ◌<◌, None};
ghost use Rattle.rv_alu.specs.Alu.{alu_of, branch_of};
ghost use Rattle.rv_step.specs.Site.{OnVcpu, reg_of, source_value, wrote, moved_to, after, plus};
ghost use Rattle.rv_step.specs.Classes.{did_alu, did_put, did_jump, did_branch, did_nothing};

use crate::vcpu::{Effect, Vcpu, following, register, relative, source_value, write_back};
use fc_numbers::places::Va;
use rv_alu::{alu, branch};
use rv_kinds::{Alu, Branch};

/// Arithmetic on a register and a source.
#[inline(always)]
#[tactic(auto, unfolding(crate::specs::Classes::did_alu))]
pub(crate) fn do_alu(vcpu: &mut Vcpu, len: u8, inst: Alu) -> Effect
    ensures { let made : OnVcpu = record { vcpu = vcpu.new; effect = result } in made ≡ did_alu vcpu.old len inst }
{
    let a = register(vcpu, inst.rs1);
    let b = source_value(vcpu, inst.source);
    write_back(vcpu, len, inst.rd, alu(inst.op, a, b));
    Effect::Next
}

/// A number that is only put into a register: LUI and AUIPC.
#[tactic(auto, unfolding(crate::specs::Classes::did_put))]
pub(crate) fn do_put(vcpu: &mut Vcpu, len: u8, rd: u8, value: u64) -> Effect
    ensures { let made : OnVcpu = record { vcpu = vcpu.new; effect = result } in made ≡ did_put vcpu.old len rd value }
{
    write_back(vcpu, len, rd, value);
    Effect::Next
}

/// A jump that leaves the address after it in a register.
#[tactic(auto, unfolding(crate::specs::Classes::did_jump))]
pub(crate) fn do_jump(vcpu: &mut Vcpu, len: u8, rd: u8, to: u64) -> Effect
    ensures { let made : OnVcpu = record { vcpu = vcpu.new; effect = result } in made ≡ did_jump vcpu.old len rd to }
{
    let link = following(vcpu, len);
    write_back(vcpu, len, rd, link);
    vcpu.pc = Va(to);
    Effect::Next
}

/// A branch on two registers.
#[tactic(auto, unfolding(crate::specs::Classes::did_branch))]
pub(crate) fn do_branch(vcpu: &mut Vcpu, len: u8, inst: Branch) -> Effect
    ensures { let made : OnVcpu = record { vcpu = vcpu.new; effect = result } in made ≡ did_branch vcpu.old len inst }
{
    let a = register(vcpu, inst.rs1);
    let b = register(vcpu, inst.rs2);
    let to = if branch(inst.op, a, b) {
        relative(vcpu, inst.imm)
    } else {
        following(vcpu, len)
    };
    vcpu.pc = Va(to);
    Effect::Next
}

/// An instruction that only goes on.
#[tactic(auto, unfolding(crate::specs::Classes::did_nothing))]
pub(crate) fn do_nothing(vcpu: &mut Vcpu, len: u8) -> Effect
    ensures { let made : OnVcpu = record { vcpu = vcpu.new; effect = result } in made ≡ did_nothing vcpu.old len }
{
    let to = following(vcpu, len);
    vcpu.pc = Va(to);
    Effect::Next
}
