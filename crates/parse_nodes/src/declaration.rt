ghost use Rattle.std.specs.Prelude.{◌≡◌, ◌+◌, ◌<◌, ◌≤◌, max, false, IfErr, IfOk};
ghost use Rattle.c_tree.specs.Named.{map_option, named_declaration};
ghost use Rattle.c_tree.specs.Said.{Plain};
ghost use Rattle.c_tree.specs.declared.token.TokenKind.TheVariants.{Comma, Semicolon};
ghost use Rattle.c_tree.specs.Tree.{Absent, AndExpr, Declared, Listed, NoExpr, Nothing, Objects, Parameter, Prototype, Then, Value};
ghost use Rattle.c_tree.specs.View.{declaration_of, expr_of, exprs_of, id_of, object_of, param_of, row_of, shape_of};
ghost use Rattle.parse_grammar.specs.Machine.{Goes, declared, object_ends};
ghost use Rattle.parse_begun.specs.Depths.{head_depth};
ghost use Rattle.parse_begun.specs.View.{Gives, Names, head_of, object_part_of, scope_of};
ghost use Rattle.parse_begun.specs.declared.refusal.Refusal.TheVariants.{Memory};

use c_tree::declaration::{Declaration, Initial, Object, Param};
use c_tree::expression::{NameId, Specifier};
use c_tree::statement::ForStart;
use c_tree::token::TokenKind;
use parse_begun::begun::{AtHead, AtStatement, Braces, Head, NameAt, Scope, State};
use parse_begun::list::{and_declaration, and_declaring, and_expr, and_object};
use parse_begun::part::{
    DeclarationPart, ObjectPart, ObjectParts, ParamPart, ParamParts, Part, Parts, ShapePart,
    StartPart,
};
use parse_begun::refusal::Refusal;

/// An object without an initial value.
pub fn object(name: NameAt, shape: ShapePart) -> ObjectPart
    requires { shape.depth < 256 }
    ensures tree { object_of result.object ≡ Declared name.name.0 (shape_of shape.shape) Absent name.at }
    ensures depth { result.depth ≡ shape.depth + 1 }
{
    let depth = shape.depth + 1;
    ObjectPart {
        object: Object {
            name: name.name,
            shape: shape.shape,
            initial: Initial::Absent,
            at: name.at,
        },
        depth,
    }
}

/// An object with an initial value.
pub fn valued_object(name: NameAt, shape: ShapePart, value: Part) -> ObjectPart
    requires { max shape.depth value.depth < 256 }
    ensures tree { object_of result.object ≡ Declared name.name.0 (shape_of shape.shape) (Value (expr_of value.tree)) name.at }
    ensures depth { result.depth ≡ max shape.depth value.depth + 1 }
{
    let depth = shape.depth.max(value.depth) + 1;
    ObjectPart {
        object: Object {
            name: name.name,
            shape: shape.shape,
            initial: Initial::Value(value.tree),
            at: name.at,
        },
        depth,
    }
}

/// An object with a list of initial values.
pub fn listed_object(name: NameAt, shape: ShapePart, values: Parts, comma: bool) -> ObjectPart
    requires { max shape.depth values.depth < 256 }
    ensures tree { object_of result.object ≡ Declared name.name.0 (shape_of shape.shape) (Listed (exprs_of NoExpr values.list.items) comma) name.at }
    ensures depth { result.depth ≡ max shape.depth values.depth + 1 }
{
    let depth = shape.depth.max(values.depth) + 1;
    ObjectPart {
        object: Object {
            name: name.name,
            shape: shape.shape,
            initial: Initial::List {
                values: values.list,
                comma,
            },
            at: name.at,
        },
        depth,
    }
}

/// An object with a list of initial values that this value ends.
pub fn object_with(
    name: NameAt,
    shape: ShapePart,
    front: Parts,
    last: Part,
) -> Result<ObjectPart, Refusal>
    requires { max shape.depth (max front.depth last.depth) < 256 }
    ensures ok { IfOk result (λ p. (object_of p.object ≡ Declared name.name.0 (shape_of shape.shape) (Listed (AndExpr (exprs_of NoExpr front.list.items) (expr_of last.tree)) false) name.at) × (p.depth ≡ max shape.depth (max front.depth last.depth) + 1)) }
    ensures err { IfErr result (λ e. e ≡ Memory) }
{
    match and_expr(front, last) {
        Ok(values) => Ok(listed_object(name, shape, values, false)),
        Err(refusal) => {
            shape.let_go();
            Err(refusal)
        }
    }
}

/// A declaration of objects.
pub fn object_declaration(
    specifiers: Vec<Specifier>,
    objects: ObjectParts,
    at: u32,
) -> DeclarationPart
    requires { objects.depth < 256 }
    ensures tree { declaration_of result.declaration ≡ Objects specifiers.items (row_of object_of Nothing objects.list.items) at }
    ensures depth { result.depth ≡ objects.depth + 1 }
{
    let depth = objects.depth + 1;
    DeclarationPart {
        declaration: Declaration::Objects {
            specifiers,
            objects: objects.list,
            at,
        },
        depth,
    }
}

/// A declaration with one object more.
fn objects_with(
    specifiers: Vec<Specifier>,
    front: ObjectParts,
    last: ObjectPart,
    at: u32,
) -> Result<DeclarationPart, Refusal>
    requires { max front.depth last.depth < 256 }
    ensures ok { IfOk result (λ p. (declaration_of p.declaration ≡ Objects specifiers.items (Then (row_of object_of Nothing front.list.items) (object_of last.object)) at) × (p.depth ≡ max front.depth last.depth + 1)) }
    ensures err { IfErr result (λ e. e ≡ Memory) }
{
    let objects = and_object(front, last)?;
    Ok(object_declaration(specifiers, objects, at))
}

/// A parameter.
pub fn parameter(
    specifiers: Vec<Specifier>,
    name: Option<NameId>,
    shape: ShapePart,
    at: u32,
) -> ParamPart
    requires { shape.depth < 256 }
    ensures tree { param_of result.param ≡ Parameter specifiers.items (map_option id_of name) (shape_of shape.shape) at }
    ensures depth { result.depth ≡ shape.depth + 1 }
{
    let depth = shape.depth + 1;
    ParamPart {
        param: Param {
            specifiers,
            name,
            shape: shape.shape,
            at,
        },
        depth,
    }
}

/// A declaration of a function.
pub fn prototype(
    specifiers: Vec<Specifier>,
    name: NameId,
    params: ParamParts,
    at: u32,
) -> DeclarationPart
    requires { params.depth < 256 }
    ensures tree { declaration_of result.declaration ≡ Prototype specifiers.items name.0 (row_of param_of Nothing params.list.items) at }
    ensures depth { result.depth ≡ params.depth + 1 }
{
    let depth = params.depth + 1;
    DeclarationPart {
        declaration: Declaration::Prototype {
            specifiers,
            name,
            params: params.list,
            at,
        },
        depth,
    }
}

/// A declaration is whole.
pub fn end_declaration(scope: Scope, declaration: DeclarationPart) -> Result<State, Refusal>
    ensures { (f : Names) → Gives f result (Goes (declared (scope_of f scope) (named_declaration f (declaration_of declaration.declaration)))) }
{
    match scope {
        Scope::AtFile(front) => Ok(State::File(and_declaring(front, declaration)?)),
        Scope::AmongItems(front, braces) => match and_declaration(front, declaration) {
            Ok(items) => Ok(State::Among(items, braces)),
            Err(refusal) => {
                Braces::let_go(braces);
                Err(refusal)
            }
        },
        Scope::AtFor(head, under) => {
            let start = StartPart {
                start: ForStart::Declaration(declaration.declaration),
                depth: declaration.depth,
            };
            Ok(State::OfStatement(AtStatement::LoopTests(head.started(start)), under))
        }
    }
}

/// Behind the object a further one comes.
fn and_further(head: Head, object: ObjectPart) -> Result<State, Refusal>
    ensures { (f : Names) → Gives f result (object_ends (Plain Comma) (head_of f head) (object_part_of f object)) }
{
    match and_object(head.objects, object) {
        Ok(objects) => Ok(State::OfHead(
            AtHead::Further,
            Head {
                specifiers: head.specifiers,
                objects,
                at: head.at,
                scope: head.scope,
            },
        )),
        Err(refusal) => {
            head.scope.let_go();
            Err(refusal)
        }
    }
}

/// The object is the last of its declaration.
#[tactic(auto, using(parse_begun::proofs::Deeper::scope_deeper))]
fn end_objects(head: Head, object: ObjectPart) -> Result<State, Refusal>
    requires { head_depth head object.depth ≤ 256 }
    ensures { (f : Names) → Gives f result (object_ends (Plain Semicolon) (head_of f head) (object_part_of f object)) }
{
    match objects_with(head.specifiers, head.objects, object, head.at) {
        Ok(whole) => end_declaration(head.scope, whole),
        Err(refusal) => {
            head.scope.let_go();
            Err(refusal)
        }
    }
}

/// An object is whole, and a token ends it.
pub fn end_object(kind: TokenKind, head: Head, object: ObjectPart) -> Result<State, Refusal>
    requires { head_depth head object.depth ≤ 256 }
    ensures { (f : Names) → Gives f result (object_ends (Plain kind) (head_of f head) (object_part_of f object)) }
{
    match kind {
        TokenKind::Comma => and_further(head, object),
        TokenKind::Semicolon => end_objects(head, object),
        _ => {
            object.let_go();
            Err(head.refuse())
        }
    }
}
