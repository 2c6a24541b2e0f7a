// A store and a sink that count what becomes of their calls.
ghost use Rattle.base_stores.specs.States.{mem_store, mem_sink};

use base_stores::{MemSink, MemStore};
use wcc_base::{Fault, Sink, Store};

/// A store in memory, how often it was called, and how often reading and writing failed.
#[derive(Drop)]
pub struct WatchedStore {
    pub store: MemStore,
    pub calls: u32,
    pub read_faults: u32,
    pub write_faults: u32,
}

/// A sink in memory, how often it was called, and how often it failed.
#[derive(Drop)]
pub struct WatchedSink {
    pub sink: MemSink,
    pub calls: u32,
    pub faults: u32,
}

impl WatchedStore {
    pub fn new(store: MemStore) -> Self {
        WatchedStore {
            store,
            calls: 0,
            read_faults: 0,
            write_faults: 0,
        }
    }
}

impl WatchedSink {
    pub fn new(sink: MemSink) -> Self {
        WatchedSink {
            sink,
            calls: 0,
            faults: 0,
        }
    }
}

// Counts an answer where it is a fault.
fn count<T>(faults: &mut u32, answer: &Result<T, Fault>) {
    if let Err(Fault::Failed) = answer {
        *faults = faults.saturating_add(1);
    }
}

impl Store for WatchedStore {
    ghost state = { λ w. mem_store w.store };

    fn read_at(&mut self, name: &str, at: u64, buf: &mut [u8]) -> Result<usize, Fault> {
        self.calls = self.calls.saturating_add(1);
        let read = self.store.read_at(name, at, buf);
        count(&mut self.read_faults, &read);
        read
    }

    fn begin(&mut self, name: &str) -> Result<(), Fault> {
        self.calls = self.calls.saturating_add(1);
        let begun = self.store.begin(name);
        count(&mut self.write_faults, &begun);
        begun
    }

    fn append(&mut self, name: &str, piece: &[u8]) -> Result<usize, Fault> {
        self.calls = self.calls.saturating_add(1);
        let added = self.store.append(name, piece);
        count(&mut self.write_faults, &added);
        added
    }
}

impl Sink for WatchedSink {
    ghost state = { λ w. mem_sink w.sink };

    fn put(&mut self, piece: &[u8]) -> Result<usize, Fault> {
        self.calls = self.calls.saturating_add(1);
        let taken = self.sink.put(piece);
        count(&mut self.faults, &taken);
        taken
    }
}
