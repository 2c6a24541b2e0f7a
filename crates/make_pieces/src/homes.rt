// Where objects live, and how they are read and stored there.
ghost use Rattle.std.specs.Prelude.{◌≡◌, IfOk};
ghost use Rattle.make_pieces.specs.View.{target_of};
ghost use Rattle.high_ir.specs.View.{expr_of, statement_of};
ghost use Rattle.plan_definition.specs.Homes.{array_at, base_at, home_of, loaded, scalar_at, stored};

use super::code::Code;
use high_ir::expression::Expr;
use high_ir::expressions::element;
use high_ir::object::{Array, Base, Kind};
use high_ir::statement::Statement;
use plan_definition::Home;
use std::alloc::Global;
use wcc_base::Memory;

/// A variable, or an element.
#[derive(Drop)]
pub enum Target {
    InFrame(u32),
    InMemory { array: Array, index: Expr },
}

/// Code, and the target that it finds.
#[derive(Drop)]
pub struct Aimed {
    pub code: Code,
    pub target: Target,
}

/// The home of the object of this number.
pub fn home_of(homes: &[Home], object: u32) -> Home
    ensures { result ≡ home_of homes.now object }
{
    let index = object as usize;
    if index < homes.len() {
        return homes[index];
    }
    Home::Frame(0)
}

/// The target that a scalar is.
pub fn scalar_at(home: Home) -> Target
    ensures { target_of result ≡ scalar_at home }
{
    match home {
        Home::Frame(x) => Target::InFrame(x),
        Home::Memory(array) => Target::InMemory {
            array,
            index: Expr::Constant(0),
        },
    }
}

/// The array that lives at a home.
pub fn array_at(home: Home) -> Array
    ensures { result ≡ array_at home }
{
    match home {
        Home::Frame(x) => Array {
            kind: Kind::Word,
            base: Base::Object(x),
        },
        Home::Memory(array) => array,
    }
}

/// The array that lives at a home, as it is passed on.
pub fn base_at(home: Home) -> Base
    ensures { result ≡ base_at home }
{
    array_at(home).base
}

impl Target {
    pub fn let_go(self) {
        drop(self);
    }

    /// What the target holds.
    pub fn loaded(self, alloc: Global) -> Result<Expr, Memory>
        ensures { IfOk result (λ e. expr_of e ≡ loaded (target_of self)) }
    {
        match self {
            Target::InFrame(x) => Ok(Expr::Variable(x)),
            Target::InMemory { array, index } => element(alloc, array, index),
        }
    }

    /// The statement that stores a value.
    pub fn stored(self, value: Expr) -> Statement
        ensures { statement_of result ≡ stored (target_of self) (expr_of value) }
    {
        match self {
            Target::InFrame(variable) => Statement::Set { variable, value },
            Target::InMemory { array, index } => Statement::Keep {
                array,
                index,
                value,
            },
        }
    }
}

impl Aimed {
    /// Lets go of it.
    pub fn let_go(self) {
        drop(self);
    }
}
