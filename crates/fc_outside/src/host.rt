//! The host's files, standard output and standard error: the trusted edge. They tell no content.

ghost use Rattle.std.specs.Prelude.{◌≡◌, ◌≤◌, ◌<◌, None, IfOk, IfErr, IfSome, OnOk, OnErr, length};
ghost use Rattle.std.specs.Io.KnownBytes.{Appends};
ghost use Rattle.fc_outside.specs.declared.host.Unread.TheVariants.{TooLong};
ghost use Rattle.fc_outside.specs.Outside.{Faults, IsFaultOf};

use crate::faults::FaultCount;
use crate::outside::{PutFailed, ReadNo, Sink, Store, WriteFailed};
use std::alloc::Global;
use std::io::{Read, Write};
use std::rt::Files;
use std::{fs, io};

/// How many bytes are asked for at a time.
const CHUNK: usize = 16384;

/// The files that the host has under these names, in the folder where the process runs.
#[derive(Drop)]
pub struct HostStore<'a, R: Files> {
    rt: &'a R,
    reads: FaultCount,
    writes: FaultCount,
}

impl<'a, R: Files> HostStore<'a, R> {
    /// The files that this runtime reaches, with no fault yet.
    pub fn new(rt: &'a R) -> HostStore<'a, R>
        ensures reads { result.reads.count ≡ 0 }
        ensures writes { result.writes.count ≡ 0 }
    {
        HostStore {
            rt,
            reads: FaultCount::new(),
            writes: FaultCount::new(),
        }
    }
}

impl<'a, R: Files> Store for HostStore<'a, R> {
    ghost files = { λ _. None };

    ghost reads = { λ s. s.reads };

    ghost writes = { λ s. s.writes };

    fn read(&mut self, alloc: Global, name: &str, limit: usize) -> Result<Vec<u8>, ReadNo> {
        match read_file(self.rt, alloc, name, limit) {
            Ok(bytes) => Ok(bytes),
            Err(Unread::TooLong) => Err(ReadNo::TooLong),
            Err(Unread::NoMemory) => Err(ReadNo::NoMemory),
            Err(Unread::Host) => {
                self.reads.rise(name);
                Err(ReadNo::Failed)
            }
        }
    }

    fn write(&mut self, name: &str, bytes: &[u8]) -> Result<(), WriteFailed> {
        if write_file(self.rt, name, bytes).is_ok() {
            return Ok(());
        }
        self.writes.rise(name);
        Err(WriteFailed)
    }
}

/// Standard output or standard error.
#[derive(Drop)]
pub struct HostSink<P: Print> {
    to: P,
    faults: u64,
}

impl<P: Print> HostSink<P> {
    /// This stream, with no fault yet.
    pub fn new(to: P) -> HostSink<P>
        ensures { result.faults ≡ 0 }
    {
        HostSink { to, faults: 0 }
    }
}

impl<P: Print> Sink for HostSink<P> {
    ghost written = { λ _. None };

    ghost faults = { λ s. s.faults };

    fn put(&mut self, bytes: &[u8]) -> Result<(), PutFailed> {
        if print_all(&self.to, bytes).is_ok() {
            return Ok(());
        }
        self.faults = self.faults.saturating_add(1);
        Err(PutFailed)
    }
}

/// Why a file gives no bytes.
enum Unread {
    /// The host answered an error.
    Host,
    /// More bytes than the limit were taken.
    TooLong,
    /// An allocation of this process was refused.
    NoMemory,
}

fn read_file<R: Files>(rt: &R, alloc: Global, name: &str, limit: usize) -> Result<Vec<u8>, Unread>
    ensures { IfOk result (λ bytes. length bytes.items ≤ limit) }
{
    match fs::open(rt, name) {
        Ok(mut file) => read_all(alloc, &mut file, limit),
        Err(_) => Err(Unread::Host),
    }
}

/// Bytes of a reader up to its end, at most `limit`.
fn read_all<F: Read>(alloc: Global, from: &mut F, limit: usize) -> Result<Vec<u8>, Unread>
    ensures within { IfOk result (λ bytes. length bytes.items ≤ limit) }
    // Where the reader tells what it has left, it is all of that, and more than the limit where it is too long.
    ensures whole { IfOk result (λ bytes. IfSome (F.remaining from.old) (λ left. bytes.items ≡ left)) }
    ensures long { IfErr result (λ why. why ≡ TooLong → IfSome (F.remaining from.old) (λ left. limit < length left)) }
{
    let mut bytes = Vec::new(alloc);
    let mut chunk = [0u8; CHUNK];
    for _ in 0..u64::MAX {
        let Ok(count) = from.read(&mut chunk) else {
            return Err(Unread::Host);
        };
        if count == 0 {
            return Ok(bytes);
        }
        if count > limit - bytes.len() {
            return Err(Unread::TooLong);
        }
        if bytes.extend_from_slice(&chunk[..count]).is_err() {
            return Err(Unread::NoMemory);
        }
    }
    Err(Unread::Host)
}

fn write_file<R: Files>(rt: &R, name: &str, bytes: &[u8]) -> io::Result<()> {
    let mut file = fs::create(rt, name)?;
    write_all(&mut file, bytes)?;
    file.flush()
}

/// Writes all the bytes. A write that takes none of them is an error.
fn write_all<F: Write>(to: &mut F, bytes: &[u8]) -> io::Result<()>
    ensures { OnOk result (Appends (F.contents to.old) (F.contents to.new) bytes.now) }
{
    let mut rest = bytes;
    while !rest.is_empty() {
        let count = to.write(rest)?;
        if count == 0 {
            return Err(io::Error::from(io::ErrorKind::WriteZero));
        }
        rest = &rest[count..];
    }
    Ok(())
}

/// The same for a stream.
fn print_all<P: Print>(to: &P, bytes: &[u8]) -> io::Result<()> {
    let mut to = io::writer(to);
    write_all(&mut to, bytes)
}
