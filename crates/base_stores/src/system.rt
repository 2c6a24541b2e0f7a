// The adapters over real files and the standard output: the trusted edge. They tell no content.
ghost use Rattle.std.specs.Prelude.{◌≡◌, ◌<◌, ◌≤◌, None, length, IfOk, IsErrOf};
ghost use Rattle.wcc_base.specs.Outside.{counted};

use std::alloc::Global;
use std::fs::{self, OpenOptions};
use std::io::{self, Read, Seek, SeekFrom, Write};
use std::rt::Runtime;
use wcc_base::{Fault, Sink, Store};

/// The files of the system. Each error of the system is a fault, and so is a write that takes nothing.
#[derive(Drop)]
pub struct FsStore<R: Runtime> {
    rt: R,
    alloc: Global,
    read_failures: u64,
    write_failures: u64,
}

impl<R: Runtime> FsStore<R> {
    /// The files that this runtime reaches. No call has failed yet.
    pub fn new(rt: R, alloc: Global) -> Self
        ensures read_faults { result.read_failures ≡ 0 }
        ensures write_faults { result.write_failures ≡ 0 }
    {
        FsStore {
            rt,
            alloc,
            read_failures: 0,
            write_failures: 0,
        }
    }
}

// Reads a piece of a file.
fn read_piece<R: Runtime>(rt: &R, name: &str, at: u64, buf: &mut [u8]) -> io::Result<usize>
    ensures { IfOk result (λ n. n ≤ length buf.old) }
{
    let mut file = fs::open(rt, name)?;
    file.seek(SeekFrom::Start(at))?;
    file.read(buf)
}

// Makes the file empty.
fn make_empty<R: Runtime>(rt: &R, name: &str) -> io::Result<()> {
    let _file = fs::create(rt, name)?;
    Ok(())
}

// Adds to a file.
fn append_piece<R: Runtime>(rt: &R, name: &str, piece: &[u8]) -> io::Result<usize>
    ensures { IfOk result (λ n. n ≤ length piece.now) }
{
    let mut file = OpenOptions::new().append(true).open(rt, name)?;
    file.write(piece)
}

impl<R: Runtime> Store for FsStore<R> {
    ghost state = { λ s. record { files = None; read_faults = s.read_failures; write_faults = s.write_failures } };

    fn read_at(&mut self, name: &str, at: u64, buf: &mut [u8]) -> Result<usize, Fault>
        requires { 0 < length buf.old }
        ensures bound { IfOk result (λ n. n ≤ length buf.old) }
        ensures reads { self.new.read_failures ≡ counted self.old.read_failures result }
        ensures writes { self.new.write_failures ≡ self.old.write_failures }
    {
        match read_piece(&self.rt, name, at, buf) {
            Ok(count) => Ok(count),
            Err(_) => {
                self.read_failures = self.read_failures.saturating_add(1);
                Err(Fault::Failed)
            }
        }
    }

    fn begin(&mut self, name: &str) -> Result<(), Fault>
        ensures reads { self.new.read_failures ≡ self.old.read_failures }
        ensures writes { self.new.write_failures ≡ counted self.old.write_failures result }
    {
        match make_empty(&self.rt, name) {
            Ok(()) => Ok(()),
            Err(_) => {
                self.write_failures = self.write_failures.saturating_add(1);
                Err(Fault::Failed)
            }
        }
    }

    fn append(&mut self, name: &str, piece: &[u8]) -> Result<usize, Fault>
        requires { 0 < length piece.now }
        ensures bound { IfOk result (λ n. (0 < n) × (n ≤ length piece.now)) }
        ensures reads { self.new.read_failures ≡ self.old.read_failures }
        ensures writes { self.new.write_failures ≡ counted self.old.write_failures result }
    {
        match append_piece(&self.rt, name, piece) {
            Ok(count) if count > 0 => Ok(count),
            _ => {
                self.write_failures = self.write_failures.saturating_add(1);
                Err(Fault::Failed)
            }
        }
    }
}

/// The standard output. An error of the system is a fault, and so is a write that takes nothing.
#[derive(Drop)]
pub struct OutSink<R: Runtime> {
    rt: R,
    failures: u64,
}

impl<R: Runtime> OutSink<R> {
    /// The standard output of this runtime. No call has failed yet.
    pub fn new(rt: R) -> Self
        ensures { result.failures ≡ 0 }
    {
        OutSink { rt, failures: 0 }
    }
}

impl<R: Runtime> Sink for OutSink<R> {
    ghost state = { λ s. record { written = None; faults = s.failures } };

    /// Writes to the standard output. It takes no memory.
    fn put(&mut self, piece: &[u8]) -> Result<usize, Fault>
        requires { 0 < length piece.now }
        ensures bound { IfOk result (λ n. (0 < n) × (n ≤ length piece.now)) }
        ensures no_want { IsErrOf result Fault.Memory → ⊥ }
        ensures counts { self.new.failures ≡ counted self.old.failures result }
    {
        match io::writer(&self.rt).write(piece) {
            Ok(count) if count > 0 => Ok(count),
            _ => {
                self.failures = self.failures.saturating_add(1);
                Err(Fault::Failed)
            }
        }
    }
}
