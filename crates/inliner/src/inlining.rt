// A program with calls opened: function by function, callees first.
ghost use Rattle.std.specs.Prelude.{◌≡◌, ◌+◌, ◌*◌, ◌/◌, ◌<◌, IfOk, length, map, slice_set, sum_by};
ghost use Rattle.high_ir.specs.Programs.{program_of};
ghost use Rattle.high_ir.specs.Size.{frame_bytes, local_object_bytes};
ghost use Rattle.high_ir.specs.View.{function_of, object_of};
ghost use Rattle.high_ir.specs.Words.{kind_bytes};
ghost use Rattle.inliner.specs.Budgets.{used_by};
ghost use Rattle.inliner.specs.Inlining.{after, after_all, begun, used_in, with_body};
ghost use Rattle.inliner.specs.Measures.{sizes_of};
ghost use Rattle.inliner.specs.View.{IsSized, IsSizedMaking, functions_of, making_of};
ghost use Rattle.inliner.specs.Walking.{opened};

use super::sizes::{Sizes, all_sizes, sizes_of};
use super::used::Used;
use super::walking::{Scope, opened};
use high_again::program::copied_functions;
use high_ir::object::{Kind, Object, Storage};
use high_ir::{Function, High};
use high_renumber::numbers::sum;
use std::alloc::Global;
use wcc_base::Memory;

/// The functions as far as they are done, how large they are, and what is used of the budgets.
#[derive(Drop)]
pub struct Making {
    pub functions: Vec<Function>,
    pub sizes: Vec<Sizes>,
    pub used: Used,
}

/// How many operations such functions have.
fn operations_in(sizes: &[Sizes]) -> Result<u32, Memory>
    ensures { IfOk result (λ n. n ≡ sum_by (λ s. s.whole.operations + 1) sizes.now) }
{
    let mut count = 0;
    for size in sizes {
        count = sum(count, sum(size.whole.operations, 1)?)?;
    }
    Ok(count)
}

/// A sum; one past 64 bits would count more than fits in memory.
fn long_sum(a: u64, b: u64) -> Result<u64, Memory>
    ensures { IfOk result (λ n. n ≡ a + b) }
{
    match a.checked_add(b) {
        Some(n) => Ok(n),
        None => Err(Memory),
    }
}

/// The bytes of so many words of a frame.
fn words_bytes(values: u32, arrays: u32, locals: u32) -> u64
    ensures { result ≡ 4 * (values + arrays + locals) }
{
    4 * (u64::from(values) + u64::from(arrays) + u64::from(locals))
}

fn frame_bytes(function: &Function) -> u64
    ensures { result ≡ frame_bytes (function_of function.now) }
{
    words_bytes(function.values, function.arrays, function.locals)
}

/// The bytes of so many elements, rounded up to whole words.
fn array_bytes(kind: Kind, count: u32) -> u64
    ensures { result ≡ (count * kind_bytes kind + 3) / 4 * 4 }
{
    let count = u64::from(count);
    match kind {
        Kind::Unsigned8 => (count + 3) / 4 * 4,
        Kind::Signed8 => (count + 3) / 4 * 4,
        Kind::Unsigned16 => (count * 2 + 3) / 4 * 4,
        Kind::Signed16 => (count * 2 + 3) / 4 * 4,
        Kind::Word => (count * 4 + 3) / 4 * 4,
    }
}

fn local_bytes(object: &Object) -> u64
    ensures { result ≡ local_object_bytes object.now.storage (object_of object.now) }
{
    match object.storage {
        Storage::Constant => 0,
        Storage::Global => 0,
        Storage::Local => array_bytes(object.kind, object.length),
    }
}

/// How many bytes frames take.
fn bytes_of_frames(functions: &[Function]) -> Result<u64, Memory>
    ensures { IfOk result (λ n. n ≡ sum_by frame_bytes (functions_of functions.now)) }
{
    let mut bytes = 0;
    for function in functions {
        bytes = long_sum(bytes, frame_bytes(function))?;
    }
    Ok(bytes)
}

/// How many bytes local objects take.
fn bytes_of_objects(objects: &[Object]) -> Result<u64, Memory>
    ensures { IfOk result (λ n. n ≡ sum_by (λ o. local_object_bytes o.storage o) (map object_of objects.now)) }
{
    let mut bytes = 0;
    for object in objects {
        bytes = long_sum(bytes, local_bytes(object))?;
    }
    Ok(bytes)
}

/// What a program uses of the budgets.
#[tactic(auto, using(crate::proofs::Counted::operations_counted))]
fn used_by(program: &High, sizes: &[Sizes]) -> Result<Used, Memory>
    requires { sizes.now ≡ map sizes_of (program_of program.now).functions }
    ensures { IfOk result (λ u. u ≡ used_by (program_of program.now) 0) }
{
    let frames = bytes_of_frames(&program.functions)?;
    let objects = bytes_of_objects(&program.objects)?;
    Ok(Used {
        next: 0,
        operations: operations_in(sizes)?,
        bytes: long_sum(frames, objects)?,
    })
}

/// A function with the calls of its body opened that fit, and what is used behind it.
fn function_made(scope: &Scope, used: Used, function: &Function) -> Result<(Function, Used), Memory>
    requires { IsSized scope.now }
    ensures function { IfOk result (λ p. function_of p.0 ≡ with_body (function_of function.now) (opened scope.now.limit (functions_of scope.now.functions.now) 0 (function_of function.now).body (used_in used (function_of function.now)))) }
    ensures used { IfOk result (λ p. p.1 ≡ (opened scope.now.limit (functions_of scope.now.functions.now) 0 (function_of function.now).body (used_in used (function_of function.now))).used) }
{
    let mut behind = Used {
        next: sum(function.values, function.locals)?,
        operations: used.operations,
        bytes: used.bytes,
    };
    let body = opened(scope, 0, &function.body, &mut behind)?;
    let made = Function {
        values: function.values,
        arrays: function.arrays,
        locals: behind.next.saturating_sub(function.values),
        rank: function.rank,
        body,
    };
    Ok((made, behind))
}

/// Puts a function into its place.
#[tactic(auto, using(crate::proofs::Counted::map_set))]
fn put_back(making: &mut Making, f: usize, function: Function, used: Used) -> Result<(), Memory>
    requires there { f < length making.old.functions.items }
    requires sized { IsSizedMaking making.old }
    ensures functions { IfOk result (λ _. making_of making.new ≡ record { functions = slice_set (functions_of making.old.functions.items) f (function_of function); used = used }) }
    ensures sized { IfOk result (λ _. IsSizedMaking making.new) }
{
    let sizes = match sizes_of(&function) {
        Ok(sizes) => sizes,
        Err(memory) => {
            drop(function);
            return Err(memory);
        }
    };
    making.functions[f] = function;
    making.sizes[f] = sizes;
    making.used = used;
    Ok(())
}

/// One function more.
fn after(alloc: Global, limit: u32, f: u32, making: &mut Making) -> Result<(), Memory>
    requires { IsSizedMaking making.old }
    ensures made { IfOk result (λ _. making_of making.new ≡ after limit (making_of making.old) f) }
    ensures sized { IfOk result (λ _. IsSizedMaking making.new) }
{
    let f = f as usize;
    if f >= making.functions.len() {
        return Ok(());
    }
    let scope = Scope {
        alloc,
        limit,
        functions: &making.functions,
        sizes: &making.sizes,
    };
    let (function, used) = function_made(&scope, making.used, &making.functions[f])?;
    put_back(making, f, function, used)
}

/// All functions of an order, one after another.
pub fn after_all(
    alloc: Global,
    limit: u32,
    order: &[u32],
    making: &mut Making,
) -> Result<(), Memory>
    requires { IsSizedMaking making.old }
    ensures made { IfOk result (λ _. making_of making.new ≡ after_all limit (making_of making.old) order.now) }
    ensures sized { IfOk result (λ _. IsSizedMaking making.new) }
{
    for f in order {
        after(alloc, limit, *f, making)?;
    }
    Ok(())
}

/// The functions of a program before any call is opened.
pub fn begun(alloc: Global, program: &High) -> Result<Making, Memory>
    ensures made { IfOk result (λ m. making_of m ≡ begun (program_of program.now)) }
    ensures sized { IfOk result IsSizedMaking }
{
    let sizes = all_sizes(alloc, &program.functions)?;
    let used = used_by(program, &sizes)?;
    let functions = copied_functions(alloc, &program.functions)?;
    Ok(Making {
        functions,
        sizes,
        used,
    })
}
