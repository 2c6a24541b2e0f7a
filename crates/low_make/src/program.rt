// The program in the low form.
ghost use Rattle.std.specs.List.{flat_map};
ghost use Rattle.std.specs.Prelude.{◌≡◌, ◌++◌, [], IfOk, length, map, slice_get, slice_index_or};
ghost use Rattle.high_ir.specs.Programs.{program_of};
ghost use Rattle.high_ir.specs.View.{object_of as high_object};
ghost use Rattle.low_ir.specs.View.{claim_of, function_of, object_of as low_object};
ghost use Rattle.low_make.specs.View.{claims_of, parts_program, passed_of};
ghost use Rattle.lower_definition.specs.Calls.{claims_among, order};
ghost use Rattle.lower_definition.specs.Objects.{object_of};
ghost use Rattle.lower_definition.specs.Programs.{is_small, lowered, lowered_functions, lowered_in};

use super::claims::{add_claims, numbered};
use super::functions::lowered_function;
use super::order::visit;
use super::passing::{Claims, all_passed, copied};
use high_ir::object::Object as HighObject;
use high_ir::{High, size};
use low_ir::Function;
use low_ir::object::Object;
use lower_coder::numbers::{count, sum};
use lower_coder::objects::object_of;
use lower_expression::Scope;
use lower_statement::place_in;
use std::alloc::Global;
use wcc_base::Memory;

/// What a program in the low form is made of.
#[derive(Drop)]
pub struct Parts {
    pub functions: Vec<Function>,
    pub claims: Vec<Vec<u32>>,
    pub objects: Vec<Object>,
    pub main: u32,
    pub marks: u32,
}

/// What the functions of a program are made by.
#[derive(Clone, Copy)]
struct Making<'a> {
    alloc: Global,
    program: &'a High,
    /// The functions that calls reach, callees first.
    order: &'a [u32],
    /// The arrays that calls pass.
    passed: &'a [Claims],
    /// Whether quotients may be several instructions.
    shifts: bool,
}

fn objects_of(alloc: Global, objects: &[HighObject]) -> Result<Vec<Object>, Memory>
    ensures { IfOk result (λ o. map low_object o.items ≡ map object_of (map high_object objects.now)) }
{
    let mut made = Vec::new(alloc);
    for object in objects {
        made.push(object_of(alloc, object)?)?;
    }
    Ok(made)
}

/// The functions that calls reach from main, callees first.
fn order_of(alloc: Global, program: &High) -> Result<Vec<u32>, Memory>
    ensures { IfOk result (λ o. o.items ≡ order (program_of program.now)) }
{
    let rank = program.functions[program.main as usize].rank;
    let mut done = Vec::new(alloc);
    visit(
        alloc,
        &program.functions,
        u64::from(rank) + 1,
        program.main,
        &mut done,
    )?;
    Ok(done)
}

/// A function behind those that have `first` claims, if it is there.
fn add_function(
    making: &Making,
    first: u32,
    f: u32,
    own: &[Vec<u32>],
    functions: &mut Vec<Function>,
) -> Result<(), Memory>
    requires order { making.now.order.now ≡ order (program_of making.now.program.now) }
    requires shifts { making.now.shifts ≡ is_small (program_of making.now.program.now) }
    requires own { claims_of own.now ≡ slice_index_or (passed_of making.now.passed.now) f [] }
    ensures { IfOk result (λ _. map function_of functions.new.items ≡ map function_of functions.old.items ++ lowered_in (program_of making.now.program.now) (passed_of making.now.passed.now) first f (slice_get (program_of making.now.program.now).functions f)) }
{
    match making.program.functions.get(f as usize) {
        None => Ok(()),
        Some(function) => {
            let claims = numbered(making.alloc, first, own)?;
            let scope = Scope {
                alloc: making.alloc,
                variables: sum(function.values, function.locals)?,
                claims: &claims,
                objects: count(making.program.objects.len())?,
                order: making.order,
                shifts: making.shifts,
            };
            functions.push(lowered_function(&scope, f, function)?)?;
            Ok(())
        }
    }
}

/// A function, and the claims of its array parameters, behind others.
fn add(
    making: &Making,
    f: u32,
    functions: &mut Vec<Function>,
    claims: &mut Vec<Vec<u32>>,
) -> Result<(), Memory>
    requires order { making.now.order.now ≡ order (program_of making.now.program.now) }
    requires shifts { making.now.shifts ≡ is_small (program_of making.now.program.now) }
    ensures functions { IfOk result (λ _. map function_of functions.new.items ≡ map function_of functions.old.items ++ lowered_in (program_of making.now.program.now) (passed_of making.now.passed.now) (length claims.old.items) f (slice_get (program_of making.now.program.now).functions f)) }
    ensures claims { IfOk result (λ _. map claim_of claims.new.items ≡ map claim_of claims.old.items ++ claims_among (slice_index_or (passed_of making.now.passed.now) f [])) }
{
    let own = copied(making.alloc, making.passed, f)?;
    add_function(making, count(claims.len())?, f, &own, functions)?;
    Ok(add_claims(making.alloc, &own, claims)?)
}

/// All functions of the order, and their claims, behind others.
fn add_all(
    making: &Making,
    functions: &mut Vec<Function>,
    claims: &mut Vec<Vec<u32>>,
) -> Result<(), Memory>
    requires order { making.now.order.now ≡ order (program_of making.now.program.now) }
    requires shifts { making.now.shifts ≡ is_small (program_of making.now.program.now) }
    ensures functions { IfOk result (λ _. map function_of functions.new.items ≡ map function_of functions.old.items ++ lowered_functions (program_of making.now.program.now) (passed_of making.now.passed.now) (length claims.old.items) making.now.order.now) }
    ensures claims { IfOk result (λ _. map claim_of claims.new.items ≡ map claim_of claims.old.items ++ flat_map (λ f. claims_among (slice_index_or (passed_of making.now.passed.now) f [])) making.now.order.now) }
{
    for f in making.order {
        add(making, *f, functions, claims)?;
    }
    Ok(())
}

/// Whether a program leaves room for quotients that are several instructions.
#[tactic(auto, unfolding(lower_definition::specs::Programs::is_small))]
fn is_small(program: &High) -> bool
    ensures { result ≡ is_small (program_of program.now) }
{
    size(program) <= 49152
}

/// What the program in the low form is made of.
pub fn parts_of(alloc: Global, program: &High) -> Result<Parts, Memory>
    ensures { IfOk result (λ p. parts_program p ≡ lowered (program_of program.now)) }
{
    let order = order_of(alloc, program)?;
    let objects = count(program.objects.len())?;
    let passed = all_passed(alloc, objects, &program.functions, &order)?;
    let making = Making {
        alloc,
        program,
        order: &order,
        passed: &passed,
        shifts: is_small(program),
    };
    let mut functions = Vec::new(alloc);
    let mut claims = Vec::new(alloc);
    add_all(&making, &mut functions, &mut claims)?;
    Ok(Parts {
        functions,
        claims,
        objects: objects_of(alloc, &program.objects)?,
        main: place_in(&order, program.main)?,
        marks: program.marks,
    })
}
