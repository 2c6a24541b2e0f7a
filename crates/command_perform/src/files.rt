// Whole files, read and written.
ghost use Rattle.std.specs.Prelude.{◌≡◌, ◌<◌, ◌+◌, ◌^◌, IsErrOf, length, IfSome, IfOk, OnOk, OnErr};
ghost use Rattle.wcc_base.specs.Outside.{bytes_of, told_put, CountsRead, CountsWrite};
ghost use Rattle.command_perform.specs.Files.{IsReading, GoesOn};
ghost use Rattle.command_perform.specs.Finishing.{IsPart};

use std::alloc::Global;
use wcc_base::{Fault, Store};

const BUFFER: usize = 65_536;

/// What was read of a file.
#[derive(Drop)]
pub enum Reading {
    Whole(Vec<u8>),
    TooLong,
}

// The buffer of a reader.
fn make_buffer(alloc: Global) -> Result<Vec<u8>, Fault>
    ensures size { IfOk result (λ buffer. length buffer.items ≡ BUFFER) }
    ensures failed { IsErrOf result Fault.Failed → ⊥ }
{
    match vec![in alloc; 0u8; BUFFER] {
        Ok(buffer) => Ok(buffer),
        Err(_) => Err(Fault::Memory),
    }
}

// Reads a piece behind what was read, and says how long it is.
fn read_more<S: Store>(
    store: &mut S,
    name: &str,
    bytes: &mut Vec<u8>,
    buffer: &mut [u8],
) -> Result<usize, Fault>
    requires { 0 < length buffer.old }
    ensures longer { IfOk result (λ n. length bytes.new.items ≡ length bytes.old.items + n) }
    ensures read { IfOk result (λ n. IfSome (S.state store.old).files
        (λ fs. GoesOn (bytes_of fs name.now) bytes.old.items bytes.new.items n)) }
    ensures same { (S.state store.new).files ≡ (S.state store.old).files }
    ensures counts { CountsRead (S.state store.old) (S.state store.new) result }
{
    match store.read_at(name, bytes.len() as u64, buffer) {
        Ok(count) => match bytes.extend_from_slice(&buffer[..count]) {
            Ok(()) => Ok(count),
            Err(_) => Err(Fault::Memory),
        },
        Err(fault) => Err(fault),
    }
}

/// Reads a file of at most that many bytes.
pub fn read_all<S: Store>(
    alloc: Global,
    store: &mut S,
    name: &str,
    most: usize,
) -> Result<Reading, Fault>
    requires { most < 2 ^ 62 }
    ensures read { IfOk result (λ r. IfSome (S.state store.old).files (λ fs. IsReading (bytes_of fs name.now) most r)) }
    ensures same { (S.state store.new).files ≡ (S.state store.old).files }
    ensures counts { CountsRead (S.state store.old) (S.state store.new) result }
{
    let mut bytes = Vec::new(alloc);
    let mut buffer = match make_buffer(alloc) {
        Ok(buffer) => buffer,
        Err(_) => return Err(Fault::Memory),
    };
    loop {
        match read_more(store, name, &mut bytes, &mut buffer) {
            Ok(0) => return Ok(Reading::Whole(bytes)),
            Ok(_) if bytes.len() > most => return Ok(Reading::TooLong),
            Ok(_) => {}
            Err(fault) => return Err(fault),
        }
    }
}

/// Writes a file.
pub fn write_all<S: Store>(store: &mut S, name: &str, bytes: &[u8]) -> Result<(), Fault>
    ensures ok { OnOk result ((S.state store.new).files ≡ told_put name.now bytes.now (S.state store.old).files) }
    ensures err { OnErr result (IsPart name.now bytes.now (S.state store.old).files (S.state store.new).files) }
    ensures counts { CountsWrite (S.state store.old) (S.state store.new) result }
{
    match store.begin(name) {
        Ok(()) => {}
        Err(fault) => return Err(fault),
    }
    let mut done = 0;
    while done < bytes.len() {
        match store.append(name, &bytes[done..]) {
            Ok(count) => done += count,
            Err(fault) => return Err(fault),
        }
    }
    Ok(())
}
