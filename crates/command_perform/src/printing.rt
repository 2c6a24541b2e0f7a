// The lines that a call prints. Printing takes no memory of its own.
ghost use Rattle.std.specs.Prelude.{◌≡◌, IfOk, OnOk, OnErr};
ghost use Rattle.wcc_base.specs.Outside.{counted, told_append};
ghost use Rattle.command_perform.specs.Lines.{shown, all_shown};
ghost use Rattle.command_perform.specs.Finishing.{IsCut, Reported, unprinted};

use crate::lines::{Part, address};
use base_stores::CalmSink;
use itoa::Buffer;
use std::alloc::Global;
use wcc_base::{Fault, Memory, Sink, Status};

// Puts bytes whole.
fn put_all<O: Sink>(out: &mut O, bytes: &[u8]) -> Result<(), Fault>
    ensures ok { OnOk result ((O.state out.new).written ≡ told_append bytes.now (O.state out.old).written) }
    ensures err { OnErr result (IsCut bytes.now (O.state out.old) (O.state out.new)) }
    ensures counts { (O.state out.new).faults ≡ counted (O.state out.old).faults result }
{
    let mut done = 0;
    while done < bytes.len() {
        match out.put(&bytes[done..]) {
            Ok(count) => done += count,
            Err(fault) => return Err(fault),
        }
    }
    Ok(())
}

// Puts a part of a line.
fn put_part<O: Sink>(out: &mut O, part: &Part) -> Result<(), Fault>
    ensures ok { OnOk result ((O.state out.new).written ≡ told_append (shown part.now) (O.state out.old).written) }
    ensures err { OnErr result (IsCut (shown part.now) (O.state out.old) (O.state out.new)) }
    ensures counts { (O.state out.new).faults ≡ counted (O.state out.old).faults result }
{
    let mut buffer = Buffer::new();
    match part {
        Part::Word(word) => put_all(out, word.as_bytes()),
        Part::Name(name) => put_all(out, *name),
        Part::Number(number) => put_all(out, buffer.format(*number).as_bytes()),
        Part::Signed(number) => put_all(out, buffer.format(*number).as_bytes()),
        Part::Address(at) => put_all(out, &address(*at)),
    }
}

// Puts lines, part by part.
fn put_lines<O: Sink>(out: &mut O, lines: &[Part]) -> Result<(), Fault>
    ensures ok { OnOk result ((O.state out.new).written ≡ told_append (all_shown lines.now) (O.state out.old).written) }
    ensures err { OnErr result (IsCut (all_shown lines.now) (O.state out.old) (O.state out.new)) }
    ensures counts { (O.state out.new).faults ≡ counted (O.state out.old).faults result }
{
    'lines: for part in lines {
        match put_part(out, part) {
            Ok(()) => {}
            Err(fault) => return Err(fault),
        }
    }
    Ok(())
}

// How a call ends whose lines could not be put.
fn unprinted(status: Status, fault: Fault) -> Status
    ensures { result ≡ unprinted status fault }
{
    match fault {
        Fault::Memory => Status::Memory,
        Fault::Failed => match status {
            Status::Done => Status::WriteFault,
            _ => status,
        },
    }
}

/// Puts the lines of a status, and says how the call ends.
pub fn report<O: Sink>(out: &mut O, status: Status, lines: &[Part]) -> Status
    ensures { Reported status (all_shown lines.now) (O.state out.old) (O.state out.new) result }
{
    match put_lines(out, lines) {
        Ok(()) => status,
        Err(fault) => unprinted(status, fault),
    }
}

/// Puts the text of what was made, and says how the call ends.
pub fn report_text<O: Sink>(out: &mut O, status: Status, text: &[u8]) -> Status
    ensures { Reported status text.now (O.state out.old) (O.state out.new) result }
{
    match put_all(out, text) {
        Ok(()) => status,
        Err(fault) => unprinted(status, fault),
    }
}

/// The bytes of a line, as they are printed.
pub fn text_of(alloc: Global, line: &[Part]) -> Result<Vec<u8>, Memory>
    ensures { IfOk result (λ text. text.items ≡ all_shown line.now) }
{
    let mut text = CalmSink::new(alloc);
    match put_lines(&mut text, line) {
        Ok(()) => Ok(text.bytes),
        Err(_) => Err(Memory),
    }
}
