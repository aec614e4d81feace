//! The numbers of the supervisor calls (RISC-V SBI specification), and what a call asks of its caller.

/// What the caller of a supervisor call is to do.
#[derive(Debug, Clone, Copy, PartialEq, Eq)]
pub enum Sbi {
    /// Nothing more.
    Done,
    /// The byte goes to the console.
    Put(u8),
    /// The run ends.
    Shutdown,
}

/// Legacy extension: one byte to the console.
pub const CONSOLE_PUTCHAR: u64 = 1;

/// Legacy extension: one byte from the console.
pub const CONSOLE_GETCHAR: u64 = 2;

/// Legacy extension: the end of the run.
pub const SHUTDOWN: u64 = 8;

/// The timer extension, "TIME".
pub const TIME: u64 = 0x5449_4D45;

/// The one function of the timer extension.
pub const SET_TIMER: u64 = 0;

/// The extension for interrupts between vCPUs, "sPI".
pub const IPI: u64 = 0x73_5049;

/// The one function of the extension for interrupts between vCPUs.
pub const SEND_IPI: u64 = 0;

/// The base of a mask that means all vCPUs: -1.
pub const ALL_VCPUS: u64 = 0xffff_ffff_ffff_ffff;

/// No key is there: -1.
pub const NO_KEY: u64 = 0xffff_ffff_ffff_ffff;

/// SBI_SUCCESS.
pub const SUCCESS: u64 = 0;

/// SBI_ERR_NOT_SUPPORTED: -2.
pub const NOT_SUPPORTED: u64 = 0xffff_ffff_ffff_fffe;

/// SBI_ERR_INVALID_PARAM: -3.
pub const INVALID_PARAM: u64 = 0xffff_ffff_ffff_fffd;
