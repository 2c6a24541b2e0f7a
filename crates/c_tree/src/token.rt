/// The kind of a token: a keyword, a punctuator, a name, a constant or a pragma (C11 6.4, 6.10.6).
#[derive(Clone, Copy, Debug, PartialEq, Eq)]
pub enum TokenKind {
    Break,
    Case,
    Char,
    Const,
    Continue,
    Default,
    Do,
    Else,
    Extern,
    For,
    If,
    Inline,
    Int,
    Long,
    Return,
    Short,
    Signed,
    Static,
    Switch,
    Unsigned,
    Void,
    While,
    LeftBracket,
    RightBracket,
    LeftParen,
    RightParen,
    LeftBrace,
    RightBrace,
    PlusPlus,
    MinusMinus,
    Ampersand,
    Star,
    Plus,
    Minus,
    Tilde,
    Exclamation,
    Slash,
    Percent,
    LessLess,
    GreaterGreater,
    LessThan,
    GreaterThan,
    LessEqual,
    GreaterEqual,
    EqualEqual,
    ExclamationEqual,
    Caret,
    Bar,
    AmpersandAmpersand,
    BarBar,
    Question,
    Colon,
    Semicolon,
    Equal,
    StarEqual,
    SlashEqual,
    PercentEqual,
    PlusEqual,
    MinusEqual,
    LessLessEqual,
    GreaterGreaterEqual,
    AmpersandEqual,
    CaretEqual,
    BarEqual,
    Comma,
    Name,
    Number,
    Character,
    LoopBound,
    Marker,
    FlowRestriction,
}

/// A span of the source, from the byte `at` up to the byte `end`, and its kind.
#[derive(Clone, Copy)]
pub struct Token {
    pub kind: TokenKind,
    pub at: u32,
    pub end: u32,
}

/// The type of an integer constant (C11 6.4.4.1).
#[derive(Clone, Copy)]
pub enum ConstantType {
    Int,
    Long,
    Unsigned,
}

/// What an integer constant says: its value and its type.
#[derive(Clone, Copy)]
pub struct Constant {
    pub value: u32,
    pub scalar: ConstantType,
}
