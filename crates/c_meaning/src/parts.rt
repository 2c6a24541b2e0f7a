// What the walk asks of single statements and items.
ghost use Rattle.std.specs.Prelude.{◌≡◌, ◌+◌, ◌<◌, drop, length, map};
ghost use Rattle.facts_definitions.specs.Most.{bounds_at};
ghost use Rattle.types_tree.specs.View.{declaration_of, items_of, label_of, object_of};
ghost use Rattle.meaning_semantics.specs.Runs.{given_back};
ghost use Rattle.types_value.specs.Kinds.{promoted};
ghost use Rattle.meaning_semantics.specs.State.{State as Stands, Fine, changed, outcome_of, step_operator, step_value, then_do};
ghost use Rattle.meaning_semantics.specs.Statements.{begun, entered, has_case, is_case, is_default, leaving, left_with, out_of_switch, unwritten_all};
ghost use Rattle.c_meaning.specs.Scopes.{goes_on_at};

use c_tree::expression::PostfixOperator;
use facts_definitions::Bounds;
use meaning_semantics::{Change, Flow, Found, State, Stop, Target};
use types_tree::declaration::{Declaration, Object};
use types_tree::expression::Fix;
use types_tree::statement::{Item, Label, LoopId};
use types_value::{Kind, Operator};

/// The bounds of a loop.
pub fn bounds_at(bounds: &[Bounds], number: LoopId) -> Bounds
    ensures { result ≡ bounds_at bounds.now number.0 }
{
    let index = number.0.saturating_sub(1);
    match bounds.get(index as usize) {
        None => Bounds { min: 0, max: 0 },
        Some(bounds) => *bounds,
    }
}

/// A loop is left while it owes so many starts of its body.
pub fn leave(owed: u32, at: u32, flow: Flow) -> Result<Flow, Stop>
    ensures { (st : Stands) → left_with owed at flow st ≡ outcome_of result st }
{
    match owed {
        0 => Ok(flow),
        _ => Err(Stop::Broken { at }),
    }
}

/// How a loop is left after one start of its body, where it is left.
pub fn leaving(flow: Flow) -> Option<Flow>
    ensures { result ≡ leaving flow }
{
    match flow {
        Flow::Onward => None,
        Flow::Continue => None,
        Flow::Break => Some(Flow::Onward),
        Flow::Return(word) => Some(Flow::Return(word)),
    }
}

pub fn out_of_switch(flow: Flow) -> Flow
    ensures { (st : Stands) → out_of_switch flow st ≡ Fine result st }
{
    match flow {
        Flow::Onward => Flow::Onward,
        Flow::Break => Flow::Onward,
        Flow::Continue => Flow::Continue,
        Flow::Return(word) => Flow::Return(word),
    }
}

/// The value that the body of a function gives back.
pub fn given_back(flow: Flow) -> Option<u32>
    ensures { result ≡ given_back flow }
{
    match flow {
        Flow::Onward => None,
        Flow::Break => None,
        Flow::Continue => None,
        Flow::Return(word) => word,
    }
}

fn forget_objects(objects: &[Object], state: &mut State)
    ensures { state.new ≡ unwritten_all (map object_of objects.now) state.old }
{
    for object in objects {
        state.clear(object.object.0);
    }
}

/// Forgets what the objects of a declaration held.
pub fn forget(declaration: &Declaration, state: &mut State)
    ensures { state.new ≡ begun (declaration_of declaration.now) state.old }
{
    match declaration {
        Declaration::Objects { objects, .. } => forget_objects(objects, state),
        Declaration::Prototype { .. } => {}
    }
}

/// Forgets what the objects of a block held.
pub fn enter(items: &[Item], state: &mut State)
    ensures { state.new ≡ entered (items_of items.now) state.old }
{
    for item in items {
        match item {
            Item::Declaration(declaration) => forget(declaration, state),
            Item::Statement(_) => {}
            Item::Restriction(_) => {}
            Item::Label(_) => {}
        }
    }
}

fn is_case(label: &Label, word: u32) -> bool
    ensures { result ≡ is_case word (label_of label.now) }
{
    match label {
        Label::Case { word: own, .. } => *own == word,
        Label::Default { .. } => false,
    }
}

fn is_default(label: &Label) -> bool
    ensures { result ≡ is_default (label_of label.now) }
{
    match label {
        Label::Case { .. } => false,
        Label::Default { .. } => true,
    }
}

/// Whether one of the labels stands for a word.
pub fn has_case(items: &[Item], word: u32) -> bool
    ensures { result ≡ has_case word (items_of items.now) }
{
    for item in items {
        match item {
            Item::Declaration(_) => {}
            Item::Statement(_) => {}
            Item::Restriction(_) => {}
            Item::Label(label) => {
                if is_case(label, word) {
                    return true;
                }
            }
        }
    }
    false
}

/// The items behind one of them.
pub fn behind(items: &[Item], index: usize) -> &[Item]
    requires { index < length items.now }
    ensures { result.now ≡ drop (index + 1) items.now }
{
    &items[index + 1..]
}

/// Whether a switch goes on at an item: at the label of its word where there is one, or else at the default.
pub fn goes_on_at(item: &Item, found: bool, word: u32) -> bool
    ensures { result ≡ goes_on_at found word item.now }
{
    match item {
        Item::Declaration(_) => false,
        Item::Statement(_) => false,
        Item::Restriction(_) => false,
        Item::Label(label) => {
            if found {
                is_case(label, word)
            } else {
                is_default(label)
            }
        }
    }
}

fn step_operator(operator: PostfixOperator) -> Operator
    ensures { result ≡ step_operator operator }
{
    match operator {
        PostfixOperator::Increment => Operator::Add,
        PostfixOperator::Decrement => Operator::Subtract,
    }
}

fn step_value(fix: Fix, change: Change) -> u32
    ensures { result ≡ step_value fix change }
{
    match fix {
        Fix::Prefix => change.behind,
        Fix::Postfix => change.before,
    }
}

/// Steps an element.
#[inline(never)]
pub fn step(
    state: &mut State,
    found: Found,
    fix: Fix,
    operator: PostfixOperator,
    kind: Kind,
) -> Result<u32, Stop>
    ensures { then_do (changed found (step_operator operator) (promoted kind) kind 1 state.old) (λ change st. Fine (step_value fix change) st) ≡ outcome_of result state.new }
{
    match state.change(found, step_operator(operator), kind.promoted(), kind, 1) {
        Err(stop) => Err(stop),
        Ok(change) => Ok(step_value(fix, change)),
    }
}

/// Changes an element by a compound assignment.
#[inline(never)]
pub fn update(
    state: &mut State,
    target: Target,
    operator: Operator,
    kind: Kind,
    to: Kind,
) -> Result<u32, Stop>
    ensures { then_do (changed target.found operator kind to target.word state.old) (λ change st. Fine change.behind st) ≡ outcome_of result state.new }
{
    match state.change(target.found, operator, kind, to, target.word) {
        Err(stop) => Err(stop),
        Ok(change) => Ok(change.behind),
    }
}
