// What a unit has of what is counted before the rules.
ghost use Rattle.std.specs.Prelude.{◌≡◌, ◌+◌, IfOk};
ghost use Rattle.c_tree.specs.Tree.{NoItem, Nothing};
ghost use Rattle.c_tree.specs.View.{declaration_of, external_of, function_of, items_of, param_of, row_of, start_of, statement_of};
ghost use Rattle.types_rules.specs.Limits.{joined, nothing_counted, one_function, one_marker, one_restriction, over, parameter_count, tally_declaration, tally_external, tally_externals, tally_items, tally_params, tally_start, tally_statement};
ghost use Rattle.types_rules.specs.Scope.{or_else};
ghost use Rattle.c_types.specs.Tally.{tally_item, tally_said};

use super::limits::over;
use c_tree::declaration::{Declaration, Param};
use c_tree::external::{External, Function};
use c_tree::statement::{ForStart, Item, Statement};
use std::alloc::AllocError;
use types_declaration::is_no_list;
use wcc_base::Bound;

/// What is counted. Of the numbers of parameters it is the first above the limit.
#[derive(Clone, Copy)]
pub struct Tally {
    pub functions: u64,
    pub parameters: Option<u64>,
    pub markers: u64,
    pub restrictions: u64,
}

fn first_number(one: Option<u64>, other: Option<u64>) -> Option<u64>
    ensures { result ≡ or_else one other }
{
    match one {
        Some(number) => Some(number),
        None => other,
    }
}

fn sum(one: u64, other: u64) -> Result<u64, AllocError>
    ensures { IfOk result (λ n. n ≡ one + other) }
{
    one.checked_add(other).ok_or(AllocError)
}

impl Tally {
    fn nothing() -> Tally
        ensures { tally_said result ≡ nothing_counted }
    {
        Tally {
            functions: 0,
            parameters: None,
            markers: 0,
            restrictions: 0,
        }
    }

    fn one_function() -> Tally
        ensures { tally_said result ≡ one_function }
    {
        Tally {
            functions: 1,
            parameters: None,
            markers: 0,
            restrictions: 0,
        }
    }

    fn one_marker() -> Tally
        ensures { tally_said result ≡ one_marker }
    {
        Tally {
            functions: 0,
            parameters: None,
            markers: 1,
            restrictions: 0,
        }
    }

    fn one_restriction() -> Tally
        ensures { tally_said result ≡ one_restriction }
    {
        Tally {
            functions: 0,
            parameters: None,
            markers: 0,
            restrictions: 1,
        }
    }

    /// Of parts one behind the other.
    fn join(self, other: Tally) -> Result<Tally, AllocError>
        ensures { IfOk result (λ t. tally_said t ≡ joined (tally_said self) (tally_said other)) }
    {
        Ok(Tally {
            functions: sum(self.functions, other.functions)?,
            parameters: first_number(self.parameters, other.parameters),
            markers: sum(self.markers, other.markers)?,
            restrictions: sum(self.restrictions, other.restrictions)?,
        })
    }
}

fn parameter_count(params: &[Param]) -> usize
    ensures { result ≡ parameter_count (row_of param_of Nothing params.now) }
{
    if is_no_list(params) {
        return 0;
    }
    params.len()
}

fn tally_params(params: &[Param]) -> Tally
    ensures { tally_said result ≡ tally_params (row_of param_of Nothing params.now) }
{
    Tally {
        functions: 0,
        parameters: over(Bound::Parameters, parameter_count(params) as u64),
        markers: 0,
        restrictions: 0,
    }
}

fn tally_declaration(declaration: &Declaration) -> Tally
    ensures { tally_said result ≡ tally_declaration (declaration_of declaration.now) }
{
    match declaration {
        Declaration::Objects { .. } => Tally::nothing(),
        Declaration::Prototype { params, .. } => tally_params(params),
    }
}

fn tally_start(start: &ForStart) -> Tally
    ensures { tally_said result ≡ tally_start (start_of start.now) }
{
    match start {
        ForStart::Absent => Tally::nothing(),
        ForStart::Expression(_) => Tally::nothing(),
        ForStart::Declaration(declaration) => tally_declaration(declaration),
    }
}

#[cycle(statements)]
fn tally_statement(statement: &Statement) -> Result<Tally, AllocError>
    ensures { IfOk result (λ t. tally_said t ≡ tally_statement (statement_of statement.now)) }
{
    match statement {
        Statement::Block { items, .. } => tally_items(items),
        Statement::Empty { .. } => Ok(Tally::nothing()),
        Statement::Expression { .. } => Ok(Tally::nothing()),
        Statement::Marker(_) => Ok(Tally::one_marker()),
        Statement::If { then, .. } => tally_statement(then),
        Statement::IfElse {
            then,
            otherwise,
            ..
        } => {
            let first = tally_statement(then)?;
            let second = tally_statement(otherwise)?;
            first.join(second)
        }
        Statement::While { body, .. } => tally_statement(body),
        Statement::Do { body, .. } => tally_statement(body),
        Statement::For { head, body, .. } => {
            let inner = tally_statement(body)?;
            tally_start(&head.start).join(inner)
        }
        Statement::Switch { items, .. } => tally_items(items),
        Statement::Break { .. } => Ok(Tally::nothing()),
        Statement::Continue { .. } => Ok(Tally::nothing()),
        Statement::Return { .. } => Ok(Tally::nothing()),
    }
}

#[cycle(statements)]
fn tally_item(item: &Item) -> Result<Tally, AllocError>
    ensures { IfOk result (λ t. tally_said t ≡ tally_item item.now) }
{
    match item {
        Item::Declaration(declaration) => Ok(tally_declaration(declaration)),
        Item::Statement(statement) => tally_statement(statement),
        Item::Restriction(_) => Ok(Tally::one_restriction()),
        Item::Label(_) => Ok(Tally::nothing()),
    }
}

#[cycle(statements)]
fn tally_items(items: &[Item]) -> Result<Tally, AllocError>
    ensures { IfOk result (λ t. tally_said t ≡ tally_items (items_of NoItem items.now)) }
{
    let mut tally = Tally::nothing();
    for item in items {
        tally = tally.join(tally_item(item)?)?;
    }
    Ok(tally)
}

fn tally_function(function: &Function) -> Result<Tally, AllocError>
    ensures { IfOk result (λ t. tally_said t ≡ tally_external (function_of function.now)) }
{
    let body = tally_params(&function.params).join(tally_items(&function.body)?)?;
    Tally::one_function().join(body)
}

fn tally_external(external: &External) -> Result<Tally, AllocError>
    ensures { IfOk result (λ t. tally_said t ≡ tally_external (external_of external.now)) }
{
    match external {
        External::Restriction(_) => Ok(Tally::one_restriction()),
        External::Declaration(declaration) => Ok(tally_declaration(declaration)),
        External::Function(function) => tally_function(function),
    }
}

/// Of what stands at file level.
pub fn tally_externals(externals: &[External]) -> Result<Tally, AllocError>
    ensures { IfOk result (λ t. tally_said t ≡ tally_externals (row_of external_of Nothing externals.now)) }
{
    let mut tally = Tally::nothing();
    for external in externals {
        tally = tally.join(tally_external(external)?)?;
    }
    Ok(tally)
}
