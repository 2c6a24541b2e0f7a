ghost use Rattle.std.specs.Prelude.{◌≡◌, ◌≤◌, IfErr, IfOk};
ghost use Rattle.parse_begun.specs.BeforeLast.{before_last};
ghost use Rattle.parse_begun.specs.declared.refusal.Refusal.TheVariants.{Memory};
ghost use Rattle.c_tree.specs.Named.{map_option};
ghost use Rattle.c_tree.specs.Size.{size, size_all, size_declaration, size_external, size_items, size_object, size_optional, size_param, size_row, size_shape, size_start, size_statement};
ghost use Rattle.c_tree.specs.Tree.{NoExpr, NoItem, Nothing};
ghost use Rattle.c_tree.specs.View.{declaration_of, expr_of, exprs_of, external_of, items_of, object_of, param_of, row_of, shape_of, start_of, statement_of};

use super::refusal::Refusal;
use c_tree::declaration::{Declaration, Object, Param, Shape};
use c_tree::expression::Expr;
use c_tree::external::External;
use c_tree::statement::{ForStart, Item, Statement};
use std::alloc::Global;

/// An expression and its depth.
#[derive(Drop)]
pub struct Part {
    pub tree: Expr,
    pub depth: u32,
    ghost is_depth: { depth ≡ (size (expr_of tree)).depth },
    ghost is_shallow: { depth ≤ 256 },
}

/// Expressions side by side, and their greatest depth.
#[derive(Drop)]
pub struct Parts {
    pub list: Vec<Expr>,
    pub depth: u32,
    ghost is_depth: { depth ≡ (size_all (exprs_of NoExpr list.items)).depth },
    ghost is_shallow: { depth ≤ 256 },
}

/// An expression that may be missing, and its depth.
#[derive(Drop)]
pub struct MaybePart {
    pub tree: Option<Expr>,
    pub depth: u32,
    ghost is_depth: { depth ≡ (size_optional (map_option expr_of tree)).depth },
    ghost is_shallow: { depth ≤ 256 },
}

/// A shape and the depth of its size.
#[derive(Drop)]
pub struct ShapePart {
    pub shape: Shape,
    pub depth: u32,
    ghost is_depth: { depth ≡ (size_shape (shape_of shape)).depth },
    ghost is_shallow: { depth ≤ 256 },
}

/// An object and its depth.
#[derive(Drop)]
pub struct ObjectPart {
    pub object: Object,
    pub depth: u32,
    ghost is_depth: { depth ≡ (size_object (object_of object)).depth },
    ghost is_shallow: { depth ≤ 256 },
}

/// The objects of a declaration so far, and their greatest depth.
#[derive(Drop)]
pub struct ObjectParts {
    pub list: Vec<Object>,
    pub depth: u32,
    ghost is_depth: { depth ≡ (size_row size_object (row_of object_of Nothing list.items)).depth },
    ghost is_shallow: { depth ≤ 256 },
}

/// A parameter and its depth.
#[derive(Drop)]
pub struct ParamPart {
    pub param: Param,
    pub depth: u32,
    ghost is_depth: { depth ≡ (size_param (param_of param)).depth },
    ghost is_shallow: { depth ≤ 256 },
}

/// The parameters of a function so far, and their greatest depth.
#[derive(Drop)]
pub struct ParamParts {
    pub list: Vec<Param>,
    pub depth: u32,
    ghost is_depth: { depth ≡ (size_row size_param (row_of param_of Nothing list.items)).depth },
    ghost is_shallow: { depth ≤ 256 },
}

/// What stands first in the head of a `for`, and its depth.
#[derive(Drop)]
pub struct StartPart {
    pub start: ForStart,
    pub depth: u32,
    ghost is_depth: { depth ≡ (size_start (start_of start)).depth },
    ghost is_shallow: { depth ≤ 256 },
}

/// A statement and its depth.
#[derive(Drop)]
pub struct StatementPart {
    pub statement: Statement,
    pub depth: u32,
    ghost is_depth: { depth ≡ (size_statement (statement_of statement)).depth },
    ghost is_shallow: { depth ≤ 256 },
}

/// The items between braces so far, their greatest depth, and that of those before the last.
#[derive(Drop)]
pub struct ItemParts {
    pub list: Vec<Item>,
    pub depth: u32,
    pub depth_before: u32,
    ghost is_depth: { depth ≡ (size_items (items_of NoItem list.items)).depth },
    ghost is_depth_before: { depth_before ≡ (size_items (before_last (items_of NoItem list.items))).depth },
    ghost is_shallow: { depth ≤ 256 },
}

/// What stands at file level so far, and its greatest depth.
#[derive(Drop)]
pub struct ExternalParts {
    pub list: Vec<External>,
    pub depth: u32,
    ghost is_depth: { depth ≡ (size_row size_external (row_of external_of Nothing list.items)).depth },
    ghost is_shallow: { depth ≤ 256 },
}

/// A declaration and its depth.
#[derive(Drop)]
pub struct DeclarationPart {
    pub declaration: Declaration,
    pub depth: u32,
    ghost is_depth: { depth ≡ (size_declaration (declaration_of declaration)).depth },
    ghost is_shallow: { depth ≤ 256 },
}

impl Part {
    pub fn boxed(self, alloc: Global) -> Result<Box<Part>, Refusal>
        ensures ok { IfOk result (λ b. b.value ≡ self) }
        ensures err { IfErr result (λ e. e ≡ Memory) }
    {
        Ok(Box::new(alloc, self)?)
    }

    pub fn let_go(self) {
        drop(self);
    }
}

impl StatementPart {
    pub fn boxed(self, alloc: Global) -> Result<Box<StatementPart>, Refusal>
        ensures ok { IfOk result (λ b. b.value ≡ self) }
        ensures err { IfErr result (λ e. e ≡ Memory) }
    {
        Ok(Box::new(alloc, self)?)
    }

    pub fn let_go(self) {
        drop(self);
    }
}

impl ObjectPart {
    pub fn let_go(self) {
        drop(self);
    }
}

impl ShapePart {
    pub fn let_go(self) {
        drop(self);
    }
}

impl Parts {
    pub fn let_go(self) {
        drop(self);
    }
}

impl ParamPart {
    pub fn let_go(self) {
        drop(self);
    }
}

impl ParamParts {
    pub fn let_go(self) {
        drop(self);
    }
}

impl ItemParts {
    pub fn let_go(self) {
        drop(self);
    }
}

impl ExternalParts {
    pub fn let_go(self) {
        drop(self);
    }
}
