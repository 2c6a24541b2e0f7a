// Files and a sink in memory that never fail.
ghost use Rattle.std.specs.Prelude.{◌≡◌, ◌<◌, ◌-◌, ◌++◌, [], Ok, length, min, IsSome, IfOk, OnErr, IsErrOf};
ghost use Rattle.wcc_base.specs.Outside.{bytes_of, file_of, put_file, Reads};
ghost use Rattle.base_stores.specs.States.{calm_files, calm_store, calm_sink};

use crate::file_list::{add_to, copy_from, empty_file, place};
use std::alloc::Global;
use wcc_base::{Fault, Sink, Store};

/// Files in memory. It never fails: an absent file reads as an empty one, and each call moves all
/// that it can.
#[derive(Drop)]
pub struct CalmStore {
    alloc: Global,
    pub files: Vec<(String, Vec<u8>)>,
}

impl CalmStore {
    /// The store of these files, whose names differ. It takes no memory.
    pub fn new(alloc: Global, files: Vec<(String, Vec<u8>)>) -> Self
        ensures { result.files ≡ files }
    {
        CalmStore { alloc, files }
    }
}

impl Store for CalmStore {
    ghost state = { calm_store };

    fn read_at(&mut self, name: &str, at: u64, buf: &mut [u8]) -> Result<usize, Fault>
        requires { 0 < length buf.old }
        ensures count { result ≡ Ok (min (length (bytes_of (calm_files self.old) name.now) - at) (length buf.old)) }
        ensures read { IfOk result (λ n. Reads (bytes_of (calm_files self.old) name.now) at n buf.new) }
        ensures same { self.new.files ≡ self.old.files }
    {
        match place(&self.files, name) {
            Some(i) => Ok(copy_from(&self.files[i].1, at, buf, usize::MAX)),
            None => Ok(0),
        }
    }

    fn begin(&mut self, name: &str) -> Result<(), Fault> {
        match empty_file(self.alloc, &mut self.files, name) {
            Ok(()) => Ok(()),
            Err(_) => Err(Fault::Memory),
        }
    }

    fn append(&mut self, name: &str, piece: &[u8]) -> Result<usize, Fault>
        requires some { 0 < length piece.now }
        requires there { IsSome (file_of (calm_files self.old) name.now) }
        ensures count { IfOk result (λ n. n ≡ length piece.now) }
        ensures ok { IfOk result (λ n. calm_files self.new
            ≡ put_file name.now (bytes_of (calm_files self.old) name.now ++ piece.now) (calm_files self.old)) }
        ensures err { OnErr result (calm_files self.new ≡ calm_files self.old) }
        ensures calm { IsErrOf result Fault.Failed → ⊥ }
    {
        add_to(&mut self.files, name, piece)?;
        Ok(piece.len())
    }
}

/// Bytes in memory. It never fails, and takes each piece whole.
#[derive(Drop)]
pub struct CalmSink {
    pub bytes: Vec<u8>,
}

impl CalmSink {
    /// The sink that has taken nothing. It takes no memory.
    pub fn new(alloc: Global) -> Self
        ensures { result.bytes.items ≡ [] }
    {
        CalmSink {
            bytes: Vec::new(alloc),
        }
    }
}

impl Sink for CalmSink {
    ghost state = { calm_sink };

    fn put(&mut self, piece: &[u8]) -> Result<usize, Fault>
        ensures whole { IfOk result (λ n. n ≡ length piece.now) }
        ensures ok { IfOk result (λ n. self.new.bytes.items ≡ self.old.bytes.items ++ piece.now) }
        ensures err { OnErr result (self.new.bytes.items ≡ self.old.bytes.items) }
        ensures calm { IsErrOf result Fault.Failed → ⊥ }
    {
        match self.bytes.extend_from_slice(piece) {
            Ok(()) => Ok(piece.len()),
            Err(_) => Err(Fault::Memory),
        }
    }
}
