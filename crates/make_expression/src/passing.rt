// What arguments leave for a call.
ghost use Rattle.std.specs.Prelude.{◌≡◌, ◌∷◌, [], IfOk, None, map};
ghost use Rattle.make_expression.specs.Makes.{passing_of};
ghost use Rattle.make_pieces.specs.View.{valued_of};
ghost use Rattle.types_tree.specs.View.{expr_of as source_of};
ghost use Rattle.high_ir.specs.Tree.{End};
ghost use Rattle.high_ir.specs.View.{expr_of};
ghost use Rattle.plan_definition.specs.Values.{argument, array_named, first_value};

use high_ir::expression::Expr;
use high_ir::object::Base;
use make_pieces::homes::{base_at, home_of};
use make_pieces::{Code, Valued};
use plan_definition::Home;
use std::alloc::Global;
use types_tree::expression::Expr as Source;
use wcc_base::Memory;

/// Code, and what it leaves for a call: values, and which arrays.
#[derive(Drop)]
pub struct Passing {
    pub code: Code,
    pub values: Vec<Expr>,
    pub arrays: Vec<Base>,
}

/// The array that an argument names.
pub fn array_named(argument: &Source) -> Option<u32>
    ensures { result ≡ array_named (source_of argument.now) }
{
    match argument {
        Source::Array { object, .. } => Some(object.0),
        Source::Number { .. } => None,
        Source::Character { .. } => None,
        Source::Read(_) => None,
        Source::Paren { .. } => None,
        Source::Call { .. } => None,
        Source::Step { .. } => None,
        Source::Sign { .. } => None,
        Source::Cast { .. } => None,
        Source::Convert { .. } => None,
        Source::Operate { .. } => None,
        Source::And { .. } => None,
        Source::Or { .. } => None,
        Source::Comma { .. } => None,
        Source::Conditional { .. } => None,
        Source::Assign { .. } => None,
        Source::Update { .. } => None,
    }
}

impl Passing {
    /// Of no argument.
    pub fn new(alloc: Global) -> Passing
        ensures { passing_of result ≡ record { code = End; values = []; arrays = [] } }
    {
        Passing {
            code: Code::new(alloc),
            values: Vec::new(alloc),
            arrays: Vec::new(alloc),
        }
    }

    pub fn let_go(self) {
        drop(self);
    }

    /// The same behind an array.
    fn with_array(self, base: Base) -> Result<Passing, Memory>
        ensures { IfOk result (λ p. passing_of p ≡ record { code = (passing_of self).code; values = (passing_of self).values; arrays = base ∷ (passing_of self).arrays }) }
    {
        let Passing {
            code,
            values,
            mut arrays,
        } = self;
        match arrays.insert(0, base) {
            Ok(()) => Ok(Passing {
                code,
                values,
                arrays,
            }),
            Err(_) => {
                code.let_go();
                drop(values);
                Err(Memory)
            }
        }
    }

    /// The same behind a value, which its code leaves as it is.
    fn with_value(self, k: u32, value: Valued) -> Result<Passing, Memory>
        ensures { IfOk result (λ p. passing_of p ≡ argument [] None k (valued_of value) (passing_of self)) }
    {
        let Passing {
            code,
            values,
            arrays,
        } = self;
        match value.kept(k, code) {
            Ok(Valued { code, value }) => match before(value, values) {
                Ok(values) => Ok(Passing {
                    code,
                    values,
                    arrays,
                }),
                Err(memory) => {
                    code.let_go();
                    Err(memory)
                }
            },
            Err(memory) => {
                drop(values);
                Err(memory)
            }
        }
    }

    /// The same behind an argument.
    pub fn behind(
        self,
        homes: &[Home],
        array: Option<u32>,
        k: u32,
        value: Valued,
    ) -> Result<Passing, Memory>
        ensures { IfOk result (λ p. passing_of p ≡ argument homes.now array k (valued_of value) (passing_of self)) }
    {
        match array {
            Some(object) => {
                value.let_go();
                self.with_array(base_at(home_of(homes, object)))
            }
            None => self.with_value(k, value),
        }
    }
}

/// A value before others; a call has few.
fn before(value: Expr, values: Vec<Expr>) -> Result<Vec<Expr>, Memory>
    ensures { IfOk result (λ v. v.items ≡ value ∷ values.items) }
{
    let mut values = values;
    values.insert(0, value)?;
    Ok(values)
}

/// The first of some values, or 0.
pub fn first_value(values: Vec<Expr>) -> Expr
    ensures { expr_of result ≡ first_value (map expr_of values.items) }
{
    let mut values = values;
    if values.is_empty() {
        return Expr::Constant(0);
    }
    values.remove(0)
}
