// Where the objects of a program live.
ghost use Rattle.std.specs.Prelude.{◌≡◌, ◌≤◌, IfOk, length, nat_le};
ghost use Rattle.std.specs.List.{prefix_len};
ghost use Rattle.types_tree.specs.View.{program_of};
ghost use Rattle.plan_definition.specs.Layouts.{begun, home_by, homes_of, in_array, next_by, one_object};
ghost use Rattle.make_program.specs.Parts.{next_of};

use high_ir::object::{Array, Base};
use make_pieces::numbers::{offset, sum};
use make_pieces::operators::kind_of;
use plan_definition::Home;
use std::alloc::Global;
use types_tree::external::Function;
use types_tree::program::Program;
use types_tree::variable::{Duration, Extent, Variable};
use wcc_base::Memory;

/// The next variable of the frame, the next array parameter, and the next array of the program.
#[derive(Clone, Copy)]
pub struct Next {
    pub variable: u32,
    pub parameter: u32,
    pub object: u32,
}

fn in_array(variable: Variable, base: Base) -> Home
    ensures { result ≡ in_array variable base }
{
    Home::Memory(Array {
        kind: kind_of(variable.kind),
        base,
    })
}

/// The home of an object: a scalar of a function lives in its frame, all else in an array.
fn home(variable: Variable, next: Next) -> Home
    ensures { result ≡ home_by variable.duration variable.extent variable (next_of next) }
{
    match variable.duration {
        Duration::Static => in_array(variable, Base::Object(next.object)),
        Duration::Automatic => match variable.extent {
            Extent::Scalar => Home::Frame(next.variable),
            Extent::Array(_) => in_array(variable, Base::Object(next.object)),
            Extent::Parameter => in_array(variable, Base::Parameter(next.parameter)),
        },
    }
}

fn one_object(next: Next) -> Result<Next, Memory>
    ensures { IfOk result (λ n. next_of n ≡ one_object (next_of next)) }
{
    Ok(Next {
        variable: next.variable,
        parameter: next.parameter,
        object: sum(next.object, 1)?,
    })
}

/// What is next behind an object.
fn next_behind(variable: Variable, next: Next) -> Result<Next, Memory>
    ensures { IfOk result (λ n. next_of n ≡ next_by variable.duration variable.extent (next_of next)) }
{
    match variable.duration {
        Duration::Static => one_object(next),
        Duration::Automatic => match variable.extent {
            Extent::Scalar => Ok(Next {
                variable: sum(next.variable, 1)?,
                parameter: next.parameter,
                object: next.object,
            }),
            Extent::Array(_) => one_object(next),
            Extent::Parameter => Ok(Next {
                variable: next.variable,
                parameter: sum(next.parameter, 1)?,
                object: next.object,
            }),
        },
    }
}

/// A function has a frame of its own.
fn begun(same: bool, next: Next) -> Next
    ensures { next_of result ≡ begun same (next_of next) }
{
    if same {
        return next;
    }
    Next {
        variable: 0,
        parameter: 0,
        object: next.object,
    }
}

/// How many of these functions begin at or before the object of this number.
fn begins(functions: &[Function], number: u32) -> usize
    ensures value { result ≡ prefix_len (λ f. nat_le f.first.0 number) functions.now }
    ensures within { result ≤ length functions.now }
{
    functions
        .iter()
        .take_while(|function| function.first.0 <= number)
        .count()
}

/// The homes of a program's objects, in the order of their numbers.
pub fn homes(alloc: Global, program: &Program) -> Result<Vec<Home>, Memory>
    ensures { IfOk result (λ v. v.items ≡ homes_of (program_of program.now)) }
{
    let mut homes = Vec::new(alloc);
    let mut next = Next {
        variable: 0,
        parameter: 0,
        object: 0,
    };
    let mut from = 0;
    for i in 0..program.variables.len() {
        let variable = program.variables[i];
        let begins = begins(&program.functions[from..], offset(0, i)?);
        let here = begun(begins == 0, next);
        homes.push(home(variable, here))?;
        next = next_behind(variable, here)?;
        from += begins;
    }
    Ok(homes)
}
