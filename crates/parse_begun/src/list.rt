ghost use Rattle.std.specs.Prelude.{◌≡◌, ◌+◌, ◌<◌, ◌∷◌, ◌++◌, [], max, IfErr, IfOk};
ghost use Rattle.c_tree.specs.Tree as trees;
ghost use Rattle.c_tree.specs.Tree.{AndDeclaration, AndExpr, AndLabel, AndRestriction, AndStatement, Case, Declaring, Default, NoExpr, NoItem, Nothing, Then};
ghost use Rattle.c_tree.specs.View.{declaration_of, expr_of, exprs_of, external_of, items_of, object_of, param_of, row_of, statement_of};
ghost use Rattle.parse_begun.specs.declared.refusal.Refusal.TheVariants.{Memory};

use super::begun::Header;
use super::part::{
    DeclarationPart, ExternalParts, ItemParts, ObjectPart, ObjectParts, ParamPart, ParamParts,
    Part, Parts, StatementPart,
};
use super::refusal::Refusal;
use c_tree::expression::Specifier;
use c_tree::external::{External, Function};
use c_tree::pragma::Pragma;
use c_tree::statement::{Item, Label};
use std::alloc::Global;

/// One specifier.
pub fn one_specifier(alloc: Global, first: Specifier) -> Result<Vec<Specifier>, Refusal>
    ensures ok { IfOk result (λ v. v.items ≡ first ∷ []) }
    ensures err { IfErr result (λ e. e ≡ Memory) }
{
    let mut list = Vec::new(alloc);
    list.push(first)?;
    Ok(list)
}

/// One specifier more.
pub fn and_specifier(front: Vec<Specifier>, last: Specifier) -> Result<Vec<Specifier>, Refusal>
    ensures ok { IfOk result (λ v. v.items ≡ front.items ++ last ∷ []) }
    ensures err { IfErr result (λ e. e ≡ Memory) }
{
    let mut list = front;
    list.push(last)?;
    Ok(list)
}

/// No expression yet.
pub fn no_parts(alloc: Global) -> Parts
    ensures { exprs_of NoExpr result.list.items ≡ NoExpr }
{
    Parts {
        list: Vec::new(alloc),
        depth: 0,
    }
}

/// One expression more.
#[tactic(auto, using(c_tree::proofs::Rows::exprs_push))]
pub fn and_expr(front: Parts, last: Part) -> Result<Parts, Refusal>
    ensures ok { IfOk result (λ p. (exprs_of NoExpr p.list.items ≡ AndExpr (exprs_of NoExpr front.list.items) (expr_of last.tree)) × (p.depth ≡ max front.depth last.depth)) }
    ensures err { IfErr result (λ e. e ≡ Memory) }
{
    let depth = front.depth.max(last.depth);
    let mut list = front.list;
    list.push(last.tree)?;
    Ok(Parts { list, depth })
}

/// No object yet.
pub fn no_objects(alloc: Global) -> ObjectParts
    ensures { row_of object_of Nothing result.list.items ≡ Nothing }
{
    ObjectParts {
        list: Vec::new(alloc),
        depth: 0,
    }
}

/// One object more.
#[tactic(auto, using(c_tree::proofs::Rows::row_push))]
pub fn and_object(front: ObjectParts, last: ObjectPart) -> Result<ObjectParts, Refusal>
    ensures ok { IfOk result (λ p. (row_of object_of Nothing p.list.items ≡ Then (row_of object_of Nothing front.list.items) (object_of last.object)) × (p.depth ≡ max front.depth last.depth)) }
    ensures err { IfErr result (λ e. e ≡ Memory) }
{
    let depth = front.depth.max(last.depth);
    let mut list = front.list;
    list.push(last.object)?;
    Ok(ObjectParts { list, depth })
}

/// No item yet.
pub fn no_items(alloc: Global) -> ItemParts
    ensures { items_of NoItem result.list.items ≡ NoItem }
{
    ItemParts {
        list: Vec::new(alloc),
        depth: 0,
        depth_before: 0,
    }
}

/// One statement more.
#[tactic(auto, using(c_tree::proofs::Rows::items_push))]
pub fn and_statement(front: ItemParts, last: StatementPart) -> Result<ItemParts, Refusal>
    ensures ok { IfOk result (λ p. (items_of NoItem p.list.items ≡ AndStatement (items_of NoItem front.list.items) (statement_of last.statement)) × (p.depth ≡ max front.depth last.depth)) }
    ensures err { IfErr result (λ e. e ≡ Memory) }
{
    let depth_before = front.depth;
    let depth = front.depth.max(last.depth);
    let mut list = front.list;
    list.push(Item::Statement(last.statement))?;
    Ok(ItemParts {
        list,
        depth,
        depth_before,
    })
}

/// One restriction more.
#[tactic(auto, using(c_tree::proofs::Rows::items_push))]
pub fn and_restriction(front: ItemParts, last: Pragma) -> Result<ItemParts, Refusal>
    ensures ok { IfOk result (λ p. items_of NoItem p.list.items ≡ AndRestriction (items_of NoItem front.list.items) last) }
    ensures err { IfErr result (λ e. e ≡ Memory) }
{
    let depth_before = front.depth;
    let depth = front.depth.max(1);
    let mut list = front.list;
    list.push(Item::Restriction(last))?;
    Ok(ItemParts {
        list,
        depth,
        depth_before,
    })
}

/// One declaration more, among items.
#[tactic(auto, using(c_tree::proofs::Rows::items_push))]
pub fn and_declaration(front: ItemParts, last: DeclarationPart) -> Result<ItemParts, Refusal>
    ensures ok { IfOk result (λ p. items_of NoItem p.list.items ≡ AndDeclaration (items_of NoItem front.list.items) (declaration_of last.declaration)) }
    ensures err { IfErr result (λ e. e ≡ Memory) }
{
    let depth_before = front.depth;
    let depth = front.depth.max(last.depth);
    let mut list = front.list;
    list.push(Item::Declaration(last.declaration))?;
    Ok(ItemParts {
        list,
        depth,
        depth_before,
    })
}

/// One declaration more, at file level.
#[tactic(auto, using(c_tree::proofs::Rows::row_push))]
pub fn and_declaring(front: ExternalParts, last: DeclarationPart) -> Result<ExternalParts, Refusal>
    ensures ok { IfOk result (λ p. row_of external_of Nothing p.list.items ≡ Then (row_of external_of Nothing front.list.items) (Declaring (declaration_of last.declaration))) }
    ensures err { IfErr result (λ e. e ≡ Memory) }
{
    let depth = front.depth.max(last.depth);
    let mut list = front.list;
    list.push(External::Declaration(last.declaration))?;
    Ok(ExternalParts { list, depth })
}

/// One label with a value more.
#[tactic(auto, using(c_tree::proofs::Rows::items_push))]
pub fn and_case(front: ItemParts, value: Part, at: u32) -> Result<ItemParts, Refusal>
    requires { value.depth < 256 }
    ensures ok { IfOk result (λ p. items_of NoItem p.list.items ≡ AndLabel (items_of NoItem front.list.items) (Case (expr_of value.tree) at)) }
    ensures err { IfErr result (λ e. e ≡ Memory) }
{
    let depth_before = front.depth;
    let depth = front.depth.max(value.depth + 1);
    let mut list = front.list;
    list.push(Item::Label(Label::Case {
        value: value.tree,
        at,
    }))?;
    Ok(ItemParts {
        list,
        depth,
        depth_before,
    })
}

/// A `default` more.
#[tactic(auto, using(c_tree::proofs::Rows::items_push))]
pub fn and_default(front: ItemParts, at: u32) -> Result<ItemParts, Refusal>
    ensures ok { IfOk result (λ p. items_of NoItem p.list.items ≡ AndLabel (items_of NoItem front.list.items) (Default at)) }
    ensures err { IfErr result (λ e. e ≡ Memory) }
{
    let depth_before = front.depth;
    let depth = front.depth.max(1);
    let mut list = front.list;
    list.push(Item::Label(Label::Default { at }))?;
    Ok(ItemParts {
        list,
        depth,
        depth_before,
    })
}

/// No parameter yet.
pub fn no_params(alloc: Global) -> ParamParts
    ensures { row_of param_of Nothing result.list.items ≡ Nothing }
{
    ParamParts {
        list: Vec::new(alloc),
        depth: 0,
    }
}

/// One parameter more.
#[tactic(auto, using(c_tree::proofs::Rows::row_push))]
pub fn and_param(front: ParamParts, last: ParamPart) -> Result<ParamParts, Refusal>
    ensures ok { IfOk result (λ p. row_of param_of Nothing p.list.items ≡ Then (row_of param_of Nothing front.list.items) (param_of last.param)) }
    ensures err { IfErr result (λ e. e ≡ Memory) }
{
    let depth = front.depth.max(last.depth);
    let mut list = front.list;
    list.push(last.param)?;
    Ok(ParamParts { list, depth })
}

/// Nothing at file level yet.
pub fn no_externals(alloc: Global) -> ExternalParts
    ensures { row_of external_of Nothing result.list.items ≡ Nothing }
{
    ExternalParts {
        list: Vec::new(alloc),
        depth: 0,
    }
}

/// One restriction more, at file level.
#[tactic(auto, using(c_tree::proofs::Rows::row_push))]
pub fn and_restricting(front: ExternalParts, last: Pragma) -> Result<ExternalParts, Refusal>
    ensures ok { IfOk result (λ p. row_of external_of Nothing p.list.items ≡ Then (row_of external_of Nothing front.list.items) (trees.Restriction last)) }
    ensures err { IfErr result (λ e. e ≡ Memory) }
{
    let depth = front.depth.max(1);
    let mut list = front.list;
    list.push(External::Restriction(last))?;
    Ok(ExternalParts { list, depth })
}

/// One function more, at file level.
#[tactic(auto, using(c_tree::proofs::Rows::row_push))]
pub fn and_function(header: Header, body: ItemParts) -> Result<ExternalParts, Refusal>
    requires { max header.params.depth (body.depth + 1) < 256 }
    ensures ok { IfOk result (λ p. row_of external_of Nothing p.list.items ≡ Then (row_of external_of Nothing header.front.list.items) (trees.Function header.specifiers.items header.name.name.0 header.name.at (row_of param_of Nothing header.params.list.items) (items_of NoItem body.list.items) header.body_at header.at)) }
    ensures err { IfErr result (λ e. e ≡ Memory) }
{
    let whole = header.params.depth.max(body.depth + 1) + 1;
    let depth = header.front.depth.max(whole);
    let mut list = header.front.list;
    list.push(External::Function(Function {
        specifiers: header.specifiers,
        name: header.name.name,
        name_at: header.name.at,
        params: header.params.list,
        body: body.list,
        body_at: header.body_at,
        at: header.at,
    }))?;
    Ok(ExternalParts { list, depth })
}

/// Nothing of a file is kept.
pub fn let_externals_go(list: Vec<External>) {
    drop(list);
}
