//! A store in memory, which fails exactly where it is told to.

ghost use Rattle.std.specs.Prelude.{◌≡◌, ◌==◌, ◌+◌, ◌≤◌, ◌<◌, ◌↔◌, ◌||◌, ◌&&◌, not, ℕ, List, [], Option, None, Some, true, false, IfOk, OnOk, OnErr, IsTrue, IsOk, IfSome, IfNone, IsErrOf, is_err, MatchOption, length, slice_index_or, slice_set, option_map, is_none, if◌then◌else◌};
ghost use Rattle.std.specs.Option.{option_copied};
ghost use Rattle.std.specs.Bool.{OnTrue};
ghost use Rattle.std.specs.List.{list_any};
ghost use Rattle.std.specs.Str.{bytes_eq};
ghost use Rattle.fc_outside.specs.Outside.{Files, Faults, IsFaultOf, ReadGives, CountsRead, CountsWrite, SameBut, holding, kept_fault_name};
ghost use Rattle.fc_outside.specs.Memory.{File, Calls, Memory, file_named, held_at, with_file, is_listed, calls_after, read_fails, has_room, write_fails, file_with_bytes, written_files, first_calls, has_failed, IsPlace, IsMissing, with_room, after_read, after_write};

use crate::faults::FaultCount;
use crate::outside::{ReadNo, Store, WriteFailed};
use fc_numbers::memory::NoMemory;
use std::alloc::Global;
use std::marker::Model;

/// Files in memory. A read or a write fails exactly where it is listed, or has nothing to read or no room.
/// In contracts it is its files in the order in which they were given room, and its reads and writes.
#[derive(Drop)]
pub struct MemStore {
    files: Vec<MemFile>,
    reads: CallCount,
    writes: CallCount,
}

impl Model for MemStore {
    ghost use Rattle.fc_outside.specs.Memory.{Memory};

    ghost Value = { Memory };

    ghost view = { λ s. record { files = s.files.items; reads = s.reads; writes = s.writes } };
}

impl MemStore {
    /// A store without files. The lists number the reads and the writes, from 1, that are to fail.
    pub fn new(reads: Vec<u64>, writes: Vec<u64>) -> MemStore
        ensures files { result.files ≡ [] }
        ensures reads { result.reads ≡ first_calls reads.items }
        ensures writes { result.writes ≡ first_calls writes.items }
    {
        MemStore {
            files: Vec::new(*reads.allocator()),
            reads: CallCount::new(reads),
            writes: CallCount::new(writes),
        }
    }

    /// Makes the name hold these bytes, or nothing, with room for `most` bytes.
    pub fn room(
        &mut self,
        alloc: Global,
        name: &str,
        bytes: Option<&[u8]>,
        most: usize,
    ) -> Result<(), NoMemory>
        requires { MatchOption bytes (Unit {0}) (λ piece. length piece.now ≤ most) }
        ensures ok { OnOk result (self.new ≡ with_room self.old name.now (option_copied bytes.entry) most) }
        ensures err { OnErr result (self.new ≡ self.old) }
    {
        let file = MemFile::new(alloc, name.as_bytes(), bytes, most)?;
        put_file(&mut self.files, file)
    }

    /// The bytes that the name holds, if any.
    pub fn bytes(&self, name: &str) -> Option<&[u8]>
        ensures { option_copied result ≡ held_at self.now.files name.now }
    {
        held_bytes(&self.files, name.as_bytes())
    }
}

impl Store for MemStore {
    ghost files = { λ s. Some (held_at s.files) };

    ghost reads = { λ s. s.reads.faults };

    ghost writes = { λ s. s.writes.faults };

    fn read(&mut self, alloc: Global, name: &str, limit: usize) -> Result<Vec<u8>, ReadNo>
        // It fails exactly where it is listed or the name holds nothing, and changes nothing but its counts.
        ensures fails { has_failed result ≡ read_fails self.old name.now }
        ensures state { self.new ≡ after_read self.old name.now }
        ensures gives { ReadGives (held_at self.old.files name.now) limit result }
        ensures within { IfOk result (λ bytes. length bytes.items ≤ limit) }
        ensures counted { CountsRead name.now self.old.reads.faults self.new.reads.faults result }
    {
        let listed = self.reads.is_listed();
        let answer = read_from(alloc, &self.files, listed, name.as_bytes(), limit);
        self.reads.count(name, has_failed(&answer));
        answer
    }

    fn write(&mut self, name: &str, bytes: &[u8]) -> Result<(), WriteFailed>
        // It fails exactly where it is listed or the name has no room for the bytes, and then leaves the name as it was.
        ensures fails { is_err result ≡ write_fails self.old name.now (length bytes.now) }
        ensures state { self.new ≡ after_write self.old name.now bytes.now }
        ensures written { OnOk result (Some (held_at self.new.files) ≡ holding name.now bytes.now (Some (held_at self.old.files))) }
        ensures counted { CountsWrite name.now self.old.writes.faults self.new.writes.faults result }
    {
        let listed = self.writes.is_listed();
        let done = write_to(&mut self.files, listed, name.as_bytes(), bytes);
        self.writes.count(name, !done);
        if done {
            return Ok(());
        }
        Err(WriteFailed)
    }
}

/// A name, the bytes that it holds, if it holds any, and for how many it has room.
#[derive(Drop)]
struct MemFile {
    name: Vec<u8>,
    holds: bool,
    bytes: Vec<u8>,
    room: usize,
}

impl Model for MemFile {
    ghost use Rattle.std.specs.Prelude.{◌≤◌, Some, None, if◌then◌else◌, vec_capacity};
    ghost use Rattle.fc_outside.specs.Memory.{File};

    ghost Value = { File };

    ghost view = { λ f. record { name = f.name.items; held = if f.holds then Some f.bytes.items else None; room = f.room } };

    ghost invariant = { λ f. f.room ≤ vec_capacity f.bytes };
}

impl MemFile {
    fn new(
        alloc: Global,
        name: &[u8],
        bytes: Option<&[u8]>,
        most: usize,
    ) -> Result<MemFile, NoMemory>
        requires { MatchOption bytes (Unit {0}) (λ piece. length piece.now ≤ most) }
        ensures { IfOk result (λ f. f ≡ record { name = name.now; held = option_copied bytes.entry; room = most }) }
    {
        let name = Vec::from_slice(alloc, name)?;
        let mut held = Vec::with_capacity(alloc, most)?;
        let holds = match bytes {
            Some(piece) => {
                held.extend_from_slice(piece)?;
                true
            }
            None => false,
        };
        Ok(MemFile {
            name,
            holds,
            bytes: held,
            room: most,
        })
    }

    fn is_named(&self, name: &[u8]) -> bool
        ensures { result ≡ bytes_eq name.now self.now.name }
    {
        name == self.name.as_slice()
    }

    fn held(&self) -> Option<&[u8]>
        ensures { option_copied result ≡ self.now.held }
    {
        if self.holds {
            Some(self.bytes.as_slice())
        } else {
            None
        }
    }

    fn name(&self) -> &[u8]
        ensures { result.now ≡ self.now.name }
    {
        &self.name
    }

    fn room(&self) -> usize
        ensures { result ≡ self.now.room }
    {
        self.room
    }

    fn fill(&mut self, bytes: &[u8])
        requires { length bytes.now ≤ self.old.room }
        ensures { self.new ≡ file_with_bytes self.old bytes.now }
    {
        self.bytes.clear();
        self.bytes.extend_from_slice(bytes).unwrap();
        self.holds = true;
    }
}

/// The calls of one kind: which are to fail, how many were made, and the faults.
#[derive(Drop)]
struct CallCount {
    failing: Vec<u64>,
    made: u64,
    faults: FaultCount,
}

impl Model for CallCount {
    ghost use Rattle.std.specs.Prelude.{◌<◌, ◌^◌};
    ghost use Rattle.fc_outside.specs.Memory.{Calls};

    ghost Value = { Calls };

    ghost view = { λ c. record { failing = c.failing.items; made = c.made; faults = c.faults } };

    ghost invariant = { λ c. c.made < 2 ^ 64 };
}

fn contains_number(numbers: &[u64], number: u64) -> bool
    ensures { result ≡ list_any (λ n. n == number) numbers.now }
{
    numbers.iter().any(|n| *n == number)
}

impl CallCount {
    fn new(failing: Vec<u64>) -> CallCount
        ensures { result ≡ first_calls failing.items }
    {
        CallCount {
            failing,
            made: 0,
            faults: FaultCount::new(),
        }
    }

    fn is_listed(&self) -> bool
        ensures { result ≡ is_listed self.now }
    {
        self.made < u64::MAX && contains_number(&self.failing, self.made + 1)
    }

    fn count(&mut self, name: &str, failed: bool)
        ensures value { self.new ≡ calls_after self.old name.now failed }
        ensures fault { OnTrue failed (IsFaultOf name.now self.old.faults self.new.faults) }
    {
        self.made = self.made.saturating_add(1);
        if failed {
            self.faults.rise(name);
        }
    }
}

/// The index of the first file of this name.
fn place_of(files: &[MemFile], name: &[u8]) -> Option<usize>
    ensures none { IfNone result (IsMissing files.now name.now) }
    ensures place { IfSome result (λ i. IsPlace files.now name.now i) }
{
    for (i, file) in files.iter().enumerate() {
        if file.is_named(name) {
            return Some(i);
        }
    }
    None
}

/// Puts a file in the place of the one of its name.
fn put_file(files: &mut Vec<MemFile>, file: MemFile) -> Result<(), NoMemory>
    ensures ok { OnOk result (files.new.items ≡ with_file files.old.items file) }
    ensures err { OnErr result (files.new.items ≡ files.old.items) }
{
    match place_of(files, file.name()) {
        Some(i) => {
            files[i] = file;
        }
        None => files.push(file)?,
    }
    Ok(())
}

/// Writes to the file of this name, where it has room and the write is not listed as one to fail.
fn write_to(files: &mut Vec<MemFile>, listed: bool, name: &[u8], bytes: &[u8]) -> bool
    ensures done { result ≡ (not listed && has_room (file_named files.old.items name.now) (length bytes.now)) }
    ensures files { files.new.items ≡ (if result then written_files files.old.items name.now bytes.now else files.old.items) }
{
    if listed {
        return false;
    }
    match place_of(files, name) {
        Some(i) => {
            let fits = bytes.len() <= files[i].room();
            if fits {
                files[i].fill(bytes);
            }
            fits
        }
        None => false,
    }
}

/// What the file of this name holds, if anything.
fn held_bytes<'a>(files: &'a [MemFile], name: &[u8]) -> Option<&'a [u8]>
    ensures { option_copied result ≡ held_at files.now name.now }
{
    match place_of(files, name) {
        Some(i) => files[i].held(),
        None => None,
    }
}

/// What the file of this name holds, at most `limit` bytes of it.
fn read_from(
    alloc: Global,
    files: &[MemFile],
    listed: bool,
    name: &[u8],
    limit: usize,
) -> Result<Vec<u8>, ReadNo>
    ensures failed { has_failed result ≡ (listed || is_none (held_at files.now name.now)) }
    ensures gives { ReadGives (held_at files.now name.now) limit result }
    ensures within { IfOk result (λ bytes. length bytes.items ≤ limit) }
{
    if listed {
        return Err(ReadNo::Failed);
    }
    let Some(bytes) = held_bytes(files, name) else {
        return Err(ReadNo::Failed);
    };
    if bytes.len() > limit {
        return Err(ReadNo::TooLong);
    }
    Ok(Vec::from_slice(alloc, bytes)?)
}

fn has_failed(answer: &Result<Vec<u8>, ReadNo>) -> bool
    ensures { result ≡ has_failed answer.now }
{
    matches!(answer, Err(ReadNo::Failed))
}
