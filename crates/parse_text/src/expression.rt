// Expressions, each node in brackets of its own, with a blank before it.
use crate::printer::Printer;
use c_tree::expression::{AssignOperator, BinaryOperator, Expr, PostfixOperator, PrefixOperator};
use c_tree::token::{Constant, ConstantType};
use std::alloc::AllocError;

fn postfix_word(operator: PostfixOperator) -> &'static str {
    match operator {
        PostfixOperator::Increment => "post++",
        PostfixOperator::Decrement => "post--",
    }
}

fn prefix_word(operator: PrefixOperator) -> &'static str {
    match operator {
        PrefixOperator::Increment => "pre++",
        PrefixOperator::Decrement => "pre--",
        PrefixOperator::Negate => "pre-",
        PrefixOperator::Plus => "pre+",
        PrefixOperator::Complement => "pre~",
        PrefixOperator::Not => "pre!",
    }
}

fn binary_word(operator: BinaryOperator) -> &'static str {
    match operator {
        BinaryOperator::Multiply => "*",
        BinaryOperator::Divide => "/",
        BinaryOperator::Remainder => "%",
        BinaryOperator::Add => "+",
        BinaryOperator::Subtract => "-",
        BinaryOperator::ShiftLeft => "<<",
        BinaryOperator::ShiftRight => ">>",
        BinaryOperator::Less => "<",
        BinaryOperator::Greater => ">",
        BinaryOperator::LessEqual => "<=",
        BinaryOperator::GreaterEqual => ">=",
        BinaryOperator::Equal => "==",
        BinaryOperator::NotEqual => "!=",
        BinaryOperator::BitAnd => "&",
        BinaryOperator::BitXor => "^",
        BinaryOperator::BitOr => "|",
        BinaryOperator::And => "&&",
        BinaryOperator::Or => "||",
        BinaryOperator::Comma => ",",
    }
}

fn assign_word(operator: AssignOperator) -> &'static str {
    match operator {
        AssignOperator::Assign => "=",
        AssignOperator::Multiply => "*=",
        AssignOperator::Divide => "/=",
        AssignOperator::Remainder => "%=",
        AssignOperator::Add => "+=",
        AssignOperator::Subtract => "-=",
        AssignOperator::ShiftLeft => "<<=",
        AssignOperator::ShiftRight => ">>=",
        AssignOperator::BitAnd => "&=",
        AssignOperator::BitXor => "^=",
        AssignOperator::BitOr => "|=",
    }
}

fn suffix(scalar: ConstantType) -> &'static str {
    match scalar {
        ConstantType::Int => "",
        ConstantType::Long => "l",
        ConstantType::Unsigned => "u",
    }
}

/// A number in decimal, with `l` or `u` where it is no `int`.
fn number(printer: &mut Printer, constant: Constant, at: u32) -> Result<(), AllocError> {
    printer.decimal(constant.value)?;
    printer.mark(suffix(constant.scalar))?;
    printer.place(at)
}

/// A character by its value in quotes.
fn character(printer: &mut Printer, value: u8, at: u32) -> Result<(), AllocError> {
    printer.quoted(value)?;
    printer.place(at)
}

/// A leaf, or what stands before the first part of a node.
fn begin(printer: &mut Printer, expr: &Expr) -> Result<(), AllocError> {
    match expr {
        Expr::Number { constant, at } => number(printer, *constant, *at),
        Expr::Character { value, at } => character(printer, *value, *at),
        Expr::Name { name, at } => {
            printer.name(*name)?;
            printer.place(*at)
        }
        Expr::Paren { at, .. } => printer.open("paren", *at),
        Expr::Index { array, at, .. } => {
            printer.open("index", *at)?;
            printer.name(*array)
        }
        Expr::Call { function, at, .. } => {
            printer.open("call", *at)?;
            printer.name(*function)
        }
        Expr::Postfix { operator, at, .. } => printer.open(postfix_word(*operator), *at),
        Expr::Prefix { operator, at, .. } => printer.open(prefix_word(*operator), *at),
        Expr::Cast { specifiers, at, .. } => {
            printer.open("cast", *at)?;
            printer.specifiers(specifiers)
        }
        Expr::Binary { operator, at, .. } => printer.open(binary_word(*operator), *at),
        Expr::Conditional { at, .. } => printer.open("?", *at),
        Expr::Assign { operator, at, .. } => printer.open(assign_word(*operator), *at),
    }
}

pub fn expression(printer: &mut Printer, expr: &Expr) -> Result<(), AllocError> {
    begin(printer, expr)?;
    match expr {
        Expr::Number { .. } | Expr::Character { .. } | Expr::Name { .. } => return Ok(()),
        Expr::Call { arguments, .. } => {
            for argument in arguments {
                expression(printer, argument)?;
            }
        }
        Expr::Paren { inner: part, .. }
        | Expr::Index { index: part, .. }
        | Expr::Postfix { operand: part, .. }
        | Expr::Prefix { operand: part, .. }
        | Expr::Cast { operand: part, .. } => expression(printer, part)?,
        Expr::Binary { left, right, .. }
        | Expr::Assign {
            target: left,
            value: right,
            ..
        } => {
            expression(printer, left)?;
            expression(printer, right)?;
        }
        Expr::Conditional {
            test,
            then,
            otherwise,
            ..
        } => {
            expression(printer, test)?;
            expression(printer, then)?;
            expression(printer, otherwise)?;
        }
    }
    printer.close()
}
