//! The state of a vCPU, as a trace keeps it.

ghost use Rattle.std.specs.Prelude.{◌≡◌, ◌<◌, ◌↔◌, IsNone, IfSome, Some, length, map, slice_get};
ghost use Rattle.trace_file.specs.Values.{values_of, state_of, value_names, first_unequal};

use fc_numbers::machine::Mode;

/// How many values a state has.
pub const VALUES: usize = 44;

/// The number of the mode among the values of a state.
pub const MODE_AT: usize = 32;

/// The names of the values, in the order of the format.
const NAMES: [&str; VALUES] = [
    "x1",
    "x2",
    "x3",
    "x4",
    "x5",
    "x6",
    "x7",
    "x8",
    "x9",
    "x10",
    "x11",
    "x12",
    "x13",
    "x14",
    "x15",
    "x16",
    "x17",
    "x18",
    "x19",
    "x20",
    "x21",
    "x22",
    "x23",
    "x24",
    "x25",
    "x26",
    "x27",
    "x28",
    "x29",
    "x30",
    "x31",
    "pc",
    "mode",
    "sstatus",
    "sie",
    "stvec",
    "scounteren",
    "sscratch",
    "sepc",
    "scause",
    "stval",
    "satp",
    "soft",
    "timer",
];

/// The registers, the address of the next instruction, the mode and the further numbers of a vCPU.
#[derive(Debug, Clone, Copy, PartialEq, Eq)]
pub struct State {
    /// Integer register 1.
    pub x1: u64,
    /// Integer register 2.
    pub x2: u64,
    /// Integer register 3.
    pub x3: u64,
    /// Integer register 4.
    pub x4: u64,
    /// Integer register 5.
    pub x5: u64,
    /// Integer register 6.
    pub x6: u64,
    /// Integer register 7.
    pub x7: u64,
    /// Integer register 8.
    pub x8: u64,
    /// Integer register 9.
    pub x9: u64,
    /// Integer register 10.
    pub x10: u64,
    /// Integer register 11.
    pub x11: u64,
    /// Integer register 12.
    pub x12: u64,
    /// Integer register 13.
    pub x13: u64,
    /// Integer register 14.
    pub x14: u64,
    /// Integer register 15.
    pub x15: u64,
    /// Integer register 16.
    pub x16: u64,
    /// Integer register 17.
    pub x17: u64,
    /// Integer register 18.
    pub x18: u64,
    /// Integer register 19.
    pub x19: u64,
    /// Integer register 20.
    pub x20: u64,
    /// Integer register 21.
    pub x21: u64,
    /// Integer register 22.
    pub x22: u64,
    /// Integer register 23.
    pub x23: u64,
    /// Integer register 24.
    pub x24: u64,
    /// Integer register 25.
    pub x25: u64,
    /// Integer register 26.
    pub x26: u64,
    /// Integer register 27.
    pub x27: u64,
    /// Integer register 28.
    pub x28: u64,
    /// Integer register 29.
    pub x29: u64,
    /// Integer register 30.
    pub x30: u64,
    /// Integer register 31.
    pub x31: u64,
    /// The virtual address of the next instruction.
    pub pc: u64,
    /// The privilege mode.
    pub mode: Mode,
    /// The register `sstatus`, as it is read.
    pub sstatus: u64,
    /// The register `sie`.
    pub sie: u64,
    /// The register `stvec`.
    pub stvec: u64,
    /// The register `scounteren`.
    pub scounteren: u64,
    /// The register `sscratch`.
    pub sscratch: u64,
    /// The register `sepc`.
    pub sepc: u64,
    /// The register `scause`.
    pub scause: u64,
    /// The register `stval`.
    pub stval: u64,
    /// The register `satp`.
    pub satp: u64,
    /// The software interrupt bit.
    pub soft: u64,
    /// The clock from which on the timer line is up.
    pub timer: u64,
}

/// The state with these values, in the order of the format; the mode is VU where its value is 0.
#[tactic(auto, unfolding(crate::specs::Values::state_of))]
pub fn state_of_values(values: &[u64; VALUES]) -> State
    ensures { result ≡ state_of values.now }
{
    State {
        x1: values[0],
        x2: values[1],
        x3: values[2],
        x4: values[3],
        x5: values[4],
        x6: values[5],
        x7: values[6],
        x8: values[7],
        x9: values[8],
        x10: values[9],
        x11: values[10],
        x12: values[11],
        x13: values[12],
        x14: values[13],
        x15: values[14],
        x16: values[15],
        x17: values[16],
        x18: values[17],
        x19: values[18],
        x20: values[19],
        x21: values[20],
        x22: values[21],
        x23: values[22],
        x24: values[23],
        x25: values[24],
        x26: values[25],
        x27: values[26],
        x28: values[27],
        x29: values[28],
        x30: values[29],
        x31: values[30],
        pc: values[31],
        mode: if values[32] == 0 { Mode::Vu } else { Mode::Vs },
        sstatus: values[33],
        sie: values[34],
        stvec: values[35],
        scounteren: values[36],
        sscratch: values[37],
        sepc: values[38],
        scause: values[39],
        stval: values[40],
        satp: values[41],
        soft: values[42],
        timer: values[43],
    }
}

/// The values of a state, in the order of the format; the mode is 0 in VU and 1 in VS.
#[tactic(auto, unfolding(crate::specs::Values::values_of))]
pub fn values_of_state(state: &State) -> [u64; VALUES]
    ensures { result ≡ values_of state.now }
{
    let mode = match state.mode {
        Mode::Vu => 0,
        Mode::Vs => 1,
    };
    [
        state.x1,
        state.x2,
        state.x3,
        state.x4,
        state.x5,
        state.x6,
        state.x7,
        state.x8,
        state.x9,
        state.x10,
        state.x11,
        state.x12,
        state.x13,
        state.x14,
        state.x15,
        state.x16,
        state.x17,
        state.x18,
        state.x19,
        state.x20,
        state.x21,
        state.x22,
        state.x23,
        state.x24,
        state.x25,
        state.x26,
        state.x27,
        state.x28,
        state.x29,
        state.x30,
        state.x31,
        state.pc,
        mode,
        state.sstatus,
        state.sie,
        state.stvec,
        state.scounteren,
        state.sscratch,
        state.sepc,
        state.scause,
        state.stval,
        state.satp,
        state.soft,
        state.timer,
    ]
}

/// The name at a place of a list of names.
fn name_at(names: &[&'static str], k: usize) -> &'static str
    requires { k < length names.now }
    ensures { slice_get (map (λ name. name.now) names.now) k ≡ Some result.now }
{
    names[k]
}

/// The name of value k, in lower case, as differences of states are printed.
pub fn value_name(k: usize) -> &'static str
    requires { k < VALUES }
    ensures { slice_get value_names k ≡ Some result.now }
{
    name_at(&NAMES, k)
}

/// The first number at which two lists of values differ.
fn first_unequal(left: &[u64; VALUES], right: &[u64; VALUES]) -> Option<usize>
    ensures value { result ≡ first_unequal left.now right.now }
    ensures within { IfSome result (λ k. k < VALUES) }
{
    left.iter()
        .zip(right.iter())
        .position(|(one, other)| one != other)
}

/// The number of the first value in which two states differ; none where they are the same.
pub fn first_difference(left: &State, right: &State) -> Option<usize>
    ensures value { result ≡ first_unequal (values_of left.now) (values_of right.now) }
    ensures same { IsNone result ↔ (left.now ≡ right.now) }
    ensures within { IfSome result (λ k. k < VALUES) }
{
    first_unequal(&values_of_state(left), &values_of_state(right))
}
