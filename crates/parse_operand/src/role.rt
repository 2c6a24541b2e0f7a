ghost use Rattle.std.specs.Prelude.{◌≡◌};
ghost use Rattle.parse_grammar.specs.Machine.{reach, role, specifier_of};
ghost use Rattle.c_tree.specs.Formed.{level, level_of};
ghost use Rattle.c_tree.specs.Said.{Plain};
ghost use Rattle.c_tree.specs.View.{expr_of};
ghost use Rattle.parse_begun.specs.View.{Names};
ghost use Rattle.parse_words.specs.Lexemes.{lexeme_of};
ghost use Rattle.parse_operand.specs.Roles.{role_view};

use c_tree::expression::{AssignOperator, BinaryOperator, Expr, PostfixOperator, Specifier};
use c_tree::token::TokenKind;
use parse_words::Lexeme;

/// What a token does behind an operand.
#[derive(Clone, Copy)]
pub enum Role {
    Joins(BinaryOperator),
    Assigns(AssignOperator),
    Steps(PostfixOperator),
    Asks,
    Separates,
    OpensParen,
    ClosesParen,
    OpensBracket,
    ClosesBracket,
    Other(TokenKind),
}

pub fn role_of(kind: TokenKind) -> Role
    ensures { role_view result ≡ role (Plain kind) }
{
    match kind {
        TokenKind::Star => Role::Joins(BinaryOperator::Multiply),
        TokenKind::Slash => Role::Joins(BinaryOperator::Divide),
        TokenKind::Percent => Role::Joins(BinaryOperator::Remainder),
        TokenKind::Plus => Role::Joins(BinaryOperator::Add),
        TokenKind::Minus => Role::Joins(BinaryOperator::Subtract),
        TokenKind::LessLess => Role::Joins(BinaryOperator::ShiftLeft),
        TokenKind::GreaterGreater => Role::Joins(BinaryOperator::ShiftRight),
        TokenKind::LessThan => Role::Joins(BinaryOperator::Less),
        TokenKind::GreaterThan => Role::Joins(BinaryOperator::Greater),
        TokenKind::LessEqual => Role::Joins(BinaryOperator::LessEqual),
        TokenKind::GreaterEqual => Role::Joins(BinaryOperator::GreaterEqual),
        TokenKind::EqualEqual => Role::Joins(BinaryOperator::Equal),
        TokenKind::ExclamationEqual => Role::Joins(BinaryOperator::NotEqual),
        TokenKind::Ampersand => Role::Joins(BinaryOperator::BitAnd),
        TokenKind::Caret => Role::Joins(BinaryOperator::BitXor),
        TokenKind::Bar => Role::Joins(BinaryOperator::BitOr),
        TokenKind::AmpersandAmpersand => Role::Joins(BinaryOperator::And),
        TokenKind::BarBar => Role::Joins(BinaryOperator::Or),
        TokenKind::Comma => Role::Joins(BinaryOperator::Comma),
        TokenKind::Equal => Role::Assigns(AssignOperator::Assign),
        TokenKind::StarEqual => Role::Assigns(AssignOperator::Multiply),
        TokenKind::SlashEqual => Role::Assigns(AssignOperator::Divide),
        TokenKind::PercentEqual => Role::Assigns(AssignOperator::Remainder),
        TokenKind::PlusEqual => Role::Assigns(AssignOperator::Add),
        TokenKind::MinusEqual => Role::Assigns(AssignOperator::Subtract),
        TokenKind::LessLessEqual => Role::Assigns(AssignOperator::ShiftLeft),
        TokenKind::GreaterGreaterEqual => Role::Assigns(AssignOperator::ShiftRight),
        TokenKind::AmpersandEqual => Role::Assigns(AssignOperator::BitAnd),
        TokenKind::CaretEqual => Role::Assigns(AssignOperator::BitXor),
        TokenKind::BarEqual => Role::Assigns(AssignOperator::BitOr),
        TokenKind::PlusPlus => Role::Steps(PostfixOperator::Increment),
        TokenKind::MinusMinus => Role::Steps(PostfixOperator::Decrement),
        TokenKind::Question => Role::Asks,
        TokenKind::Colon => Role::Separates,
        TokenKind::LeftParen => Role::OpensParen,
        TokenKind::RightParen => Role::ClosesParen,
        TokenKind::LeftBracket => Role::OpensBracket,
        TokenKind::RightBracket => Role::ClosesBracket,
        _ => Role::Other(kind),
    }
}

pub fn operator_level(operator: BinaryOperator) -> u8
    ensures { result ≡ level_of operator }
{
    match operator {
        BinaryOperator::Multiply => 3,
        BinaryOperator::Divide => 3,
        BinaryOperator::Remainder => 3,
        BinaryOperator::Add => 4,
        BinaryOperator::Subtract => 4,
        BinaryOperator::ShiftLeft => 5,
        BinaryOperator::ShiftRight => 5,
        BinaryOperator::Less => 6,
        BinaryOperator::Greater => 6,
        BinaryOperator::LessEqual => 6,
        BinaryOperator::GreaterEqual => 6,
        BinaryOperator::Equal => 7,
        BinaryOperator::NotEqual => 7,
        BinaryOperator::BitAnd => 8,
        BinaryOperator::BitXor => 9,
        BinaryOperator::BitOr => 10,
        BinaryOperator::And => 11,
        BinaryOperator::Or => 12,
        BinaryOperator::Comma => 15,
    }
}

pub fn tree_level(tree: &Expr) -> u8
    ensures { result ≡ level (expr_of tree.now) }
{
    match tree {
        Expr::Prefix { .. } => 2,
        Expr::Cast { .. } => 2,
        Expr::Binary { operator, .. } => operator_level(*operator),
        Expr::Conditional { .. } => 13,
        Expr::Assign { .. } => 14,
        _ => 1,
    }
}

/// The level at which a token goes on with an operand.
pub fn reach_of(role: Role) -> u8
    ensures { result ≡ reach (role_view role) }
{
    match role {
        Role::Joins(operator) => operator_level(operator),
        Role::Assigns(_) => 14,
        Role::Steps(_) => 1,
        Role::Asks => 13,
        Role::OpensParen => 0,
        Role::OpensBracket => 0,
        _ => 16,
    }
}

/// The specifier that a keyword is.
fn specifier(kind: TokenKind) -> Option<Specifier>
    ensures { result ≡ specifier_of (Plain kind) }
{
    match kind {
        TokenKind::Static => Some(Specifier::Static),
        TokenKind::Extern => Some(Specifier::Extern),
        TokenKind::Inline => Some(Specifier::Inline),
        TokenKind::Const => Some(Specifier::Const),
        TokenKind::Void => Some(Specifier::Void),
        TokenKind::Char => Some(Specifier::Char),
        TokenKind::Short => Some(Specifier::Short),
        TokenKind::Int => Some(Specifier::Int),
        TokenKind::Long => Some(Specifier::Long),
        TokenKind::Signed => Some(Specifier::Signed),
        TokenKind::Unsigned => Some(Specifier::Unsigned),
        _ => None,
    }
}

/// The specifier that a token is.
pub fn specifier_said(lexeme: &Lexeme) -> Option<Specifier>
    ensures { (f : Names) → result ≡ specifier_of (lexeme_of f lexeme.now) }
{
    match lexeme {
        Lexeme::Plain(kind) => specifier(*kind),
        _ => None,
    }
}
