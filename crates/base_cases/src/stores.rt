// Stores and sinks in memory, through their traits.
ghost use Rattle.std.specs.Prelude.{◌<◌, length};

use base_stores::{CalmSink, CalmStore, MemSink, MemStore};
use std::alloc::{AllocError, Global};
use wcc_base::{Fault, Sink, Store};

const NAME: &str = "written.txt";

/// Writes a piece into the store, and reads what stands there from its second byte on.
fn written<S: Store>(alloc: Global, store: &mut S, piece: &[u8]) -> Result<Vec<u8>, Fault>
    requires { 0 < length piece.now }
{
    store.begin(NAME)?;
    store.append(NAME, piece)?;
    let mut bytes = Vec::new(alloc);
    let mut buf = [0u8; 8];
    let count = store.read_at(NAME, 1, &mut buf)?;
    match bytes.extend_from_slice(&buf[..count]) {
        Ok(()) => Ok(bytes),
        Err(_) => Err(Fault::Memory),
    }
}

fn said(alloc: Global, found: Result<Vec<u8>, Fault>) -> Result<String, AllocError> {
    match found {
        Ok(bytes) => format!(in alloc; "{:?}", bytes.as_slice()),
        Err(fault) => format!(in alloc; "{fault:?}"),
    }
}

/// The second of its calls fails, and each read of an absent file.
fn failing_store(alloc: Global) -> Result<String, AllocError> {
    let mut store = MemStore::new(alloc, Vec::new(alloc), 2, vec![in alloc; 2]?);
    let mut buf = [0u8; 8];
    let (first, second) = (store.begin(NAME), store.begin(NAME));
    let absent = store.read_at("absent", 0, &mut buf);
    let empty = store.read_at(NAME, 0, &mut buf);
    format!(in alloc; "{first:?} {second:?} {absent:?} {empty:?}")
}

/// What a store answers to some calls.
pub fn store_answer(alloc: Global, which: &str) -> Result<String, AllocError> {
    if which == "failing" {
        return failing_store(alloc);
    }
    if which == "slow" {
        let mut store = MemStore::new(alloc, Vec::new(alloc), 2, Vec::new(alloc));
        let found = written(alloc, &mut store, b"hello");
        return said(alloc, found);
    }
    let mut store = CalmStore::new(alloc, Vec::new(alloc));
    let found = written(alloc, &mut store, b"hello");
    said(alloc, found)
}

/// What a sink answers to three pieces, and what it holds then.
pub fn sink_answer(alloc: Global, which: &str) -> Result<String, AllocError> {
    if which == "failing" {
        let mut sink = MemSink::new(alloc, vec![in alloc; 2]?);
        let (first, second) = (sink.put(b"one"), sink.put(b"two"));
        let third = sink.put(b"two");
        return format!(in alloc;
            "{first:?} {second:?} {third:?} {:?}",
            sink.bytes.as_slice()
        );
    }
    let mut sink = CalmSink::new(alloc);
    let first = sink.put(b"one");
    format!(in alloc; "{first:?} {:?}", sink.bytes.as_slice())
}
