// Files and a sink in memory whose calls fail by a list.
ghost use Rattle.std.specs.Prelude.{◌≡◌, ◌⊎◌, ◌↔◌, ◌<◌, ◌-◌, ◌++◌, [], length, take, min, IsTrue, IsErr, IsErrOf, IsNone, IsSome, IfOk, OnOk, OnErr};
ghost use Rattle.wcc_base.specs.Outside.{bytes_of, file_of, put_file, raised, counted, Reads, CountsRead, CountsWrite};
ghost use Rattle.base_stores.specs.Failing.{NextFails};

use crate::file_list::{add_to, copy_from, empty_file, place};
use std::alloc::Global;
use wcc_base::{Fault, Sink, Store};

/// Files in memory. A call moves at most `step` bytes. Calls are numbered from 1, and those whose
/// numbers are listed fail. A read of an absent file fails too.
#[derive(Drop)]
pub struct MemStore {
    alloc: Global,
    pub files: Vec<(String, Vec<u8>)>,
    step: usize,
    failing: Vec<u32>,
    calls: u64,
    read_failures: u64,
    write_failures: u64,
    ghost moves: { 0 < step },
}

impl MemStore {
    /// The store of these files, whose names differ. It takes no memory.
    pub fn new(alloc: Global, files: Vec<(String, Vec<u8>)>, step: usize, failing: Vec<u32>) -> Self
        requires { 0 < step }
        ensures files { result.files ≡ files }
        ensures step { result.step ≡ step }
        ensures failing { result.failing ≡ failing }
        ensures calls { result.calls ≡ 0 }
        ensures read_faults { result.read_failures ≡ 0 }
        ensures write_faults { result.write_failures ≡ 0 }
    {
        MemStore {
            alloc,
            files,
            step,
            failing,
            calls: 0,
            read_failures: 0,
            write_failures: 0,
        }
    }
}

// Counts a call, and says whether it fails.
fn next_fails(calls: &mut u64, failing: &[u32]) -> bool
    ensures counted { calls.new ≡ raised calls.old }
    ensures fails { IsTrue result ↔ NextFails calls.old failing.now }
{
    *calls = calls.saturating_add(1);
    let number = *calls;
    failing.iter().any(|n| u64::from(*n) == number)
}

impl Store for MemStore {
    ghost use Rattle.base_stores.specs.States.{mem_files, mem_store};

    ghost state = { mem_store };

    fn read_at(&mut self, name: &str, at: u64, buf: &mut [u8]) -> Result<usize, Fault>
        requires { 0 < length buf.old }
        ensures fails { IsErr result ↔ (NextFails self.old.calls self.old.failing.items
            ⊎ IsNone (file_of (mem_files self.old) name.now)) }
        ensures no_want { IsErrOf result Fault.Memory → ⊥ }
        ensures count { IfOk result (λ n. n ≡ min (min (length (bytes_of
            (mem_files self.old) name.now) - at)
            (length buf.old)) self.old.step) }
        ensures read { IfOk result (λ n. Reads (bytes_of
            (mem_files self.old) name.now) at n buf.new) }
        ensures same { self.new.files ≡ self.old.files }
        ensures calls { self.new.calls ≡ raised self.old.calls }
        ensures step { self.new.step ≡ self.old.step }
        ensures failing { self.new.failing ≡ self.old.failing }
        ensures counts { CountsRead (mem_store self.old) (mem_store self.new) result }
    {
        let fails = next_fails(&mut self.calls, &self.failing);
        match place(&self.files, name) {
            Some(i) if !fails => Ok(copy_from(&self.files[i].1, at, buf, self.step)),
            _ => {
                self.read_failures = self.read_failures.saturating_add(1);
                Err(Fault::Failed)
            }
        }
    }

    fn begin(&mut self, name: &str) -> Result<(), Fault>
        ensures fails { IsErrOf result Fault.Failed ↔ NextFails self.old.calls self.old.failing.items }
        ensures ok { OnOk result (mem_files self.new
            ≡ put_file name.now [] (mem_files self.old)) }
        ensures err { OnErr result (self.new.files.items ≡ self.old.files.items) }
        ensures calls { self.new.calls ≡ raised self.old.calls }
        ensures step { self.new.step ≡ self.old.step }
        ensures failing { self.new.failing ≡ self.old.failing }
        ensures counts { CountsWrite (mem_store self.old) (mem_store self.new) result }
    {
        if next_fails(&mut self.calls, &self.failing) {
            self.write_failures = self.write_failures.saturating_add(1);
            return Err(Fault::Failed);
        }
        match empty_file(self.alloc, &mut self.files, name) {
            Ok(()) => Ok(()),
            Err(_) => Err(Fault::Memory),
        }
    }

    fn append(&mut self, name: &str, piece: &[u8]) -> Result<usize, Fault>
        requires some { 0 < length piece.now }
        requires there { IsSome (file_of (mem_files self.old) name.now) }
        ensures fails { IsErrOf result Fault.Failed ↔ NextFails self.old.calls self.old.failing.items }
        ensures count { IfOk result (λ n. n ≡ min (length piece.now) self.old.step) }
        ensures ok { IfOk result (λ n. mem_files self.new
            ≡ put_file name.now (bytes_of (mem_files self.old) name.now ++ take n piece.now) (mem_files self.old)) }
        ensures err { OnErr result (mem_files self.new ≡ mem_files self.old) }
        ensures calls { self.new.calls ≡ raised self.old.calls }
        ensures step { self.new.step ≡ self.old.step }
        ensures failing { self.new.failing ≡ self.old.failing }
        ensures counts { CountsWrite (mem_store self.old) (mem_store self.new) result }
    {
        if next_fails(&mut self.calls, &self.failing) {
            self.write_failures = self.write_failures.saturating_add(1);
            return Err(Fault::Failed);
        }
        let count = piece.len().min(self.step);
        add_to(&mut self.files, name, &piece[..count])?;
        Ok(count)
    }
}

/// Bytes in memory. Puts are numbered from 1, and those whose numbers are listed fail. The others
/// take their piece whole.
#[derive(Drop)]
pub struct MemSink {
    pub bytes: Vec<u8>,
    failing: Vec<u32>,
    calls: u64,
    failures: u64,
}

impl MemSink {
    /// The sink that has taken nothing. It takes no memory.
    pub fn new(alloc: Global, failing: Vec<u32>) -> Self
        ensures bytes { result.bytes.items ≡ [] }
        ensures failing { result.failing ≡ failing }
        ensures calls { result.calls ≡ 0 }
        ensures faults { result.failures ≡ 0 }
    {
        MemSink {
            bytes: Vec::new(alloc),
            failing,
            calls: 0,
            failures: 0,
        }
    }
}

impl Sink for MemSink {
    ghost use Rattle.base_stores.specs.States.{mem_sink};

    ghost state = { mem_sink };

    fn put(&mut self, piece: &[u8]) -> Result<usize, Fault>
        ensures fails { IsErrOf result Fault.Failed ↔ NextFails self.old.calls self.old.failing.items }
        ensures count { IfOk result (λ n. n ≡ length piece.now) }
        ensures ok { IfOk result (λ n. self.new.bytes.items ≡ self.old.bytes.items ++ piece.now) }
        ensures err { OnErr result (self.new.bytes.items ≡ self.old.bytes.items) }
        ensures calls { self.new.calls ≡ raised self.old.calls }
        ensures failing { self.new.failing ≡ self.old.failing }
        ensures counts { self.new.failures ≡ counted self.old.failures result }
    {
        if next_fails(&mut self.calls, &self.failing) {
            self.failures = self.failures.saturating_add(1);
            return Err(Fault::Failed);
        }
        match self.bytes.extend_from_slice(piece) {
            Ok(()) => Ok(piece.len()),
            Err(_) => Err(Fault::Memory),
        }
    }
}
