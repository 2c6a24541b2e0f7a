// Keywords and punctuators (C11 6.4.1, 6.4.6).
ghost use Rattle.std.specs.Prelude.{◌≡◌, ℕ, List, [], ◌∷◌, Some, IfSome, IsTrue};
ghost use Rattle.c_lexer.specs.Forms.{first_size, punctuators};
ghost use Rattle.c_lexer.specs.Kinds.{sign_kind, word_kind};

use crate::pieces::Kind;
use crate::texts::{find_kind, is_one};
use c_tree::token::TokenKind;

/// The keywords that are tokens.
const KEYWORDS: [(&[u8], TokenKind); 22] = [
    (b"break", TokenKind::Break),
    (b"case", TokenKind::Case),
    (b"char", TokenKind::Char),
    (b"const", TokenKind::Const),
    (b"continue", TokenKind::Continue),
    (b"default", TokenKind::Default),
    (b"do", TokenKind::Do),
    (b"else", TokenKind::Else),
    (b"extern", TokenKind::Extern),
    (b"for", TokenKind::For),
    (b"if", TokenKind::If),
    (b"inline", TokenKind::Inline),
    (b"int", TokenKind::Int),
    (b"long", TokenKind::Long),
    (b"return", TokenKind::Return),
    (b"short", TokenKind::Short),
    (b"signed", TokenKind::Signed),
    (b"static", TokenKind::Static),
    (b"switch", TokenKind::Switch),
    (b"unsigned", TokenKind::Unsigned),
    (b"void", TokenKind::Void),
    (b"while", TokenKind::While),
];

/// The other keywords of C.
const OUTSIDE_WORDS: [&[u8]; 22] = [
    b"auto",
    b"double",
    b"enum",
    b"float",
    b"goto",
    b"register",
    b"restrict",
    b"sizeof",
    b"struct",
    b"typedef",
    b"union",
    b"volatile",
    b"_Alignas",
    b"_Alignof",
    b"_Atomic",
    b"_Bool",
    b"_Complex",
    b"_Generic",
    b"_Imaginary",
    b"_Noreturn",
    b"_Static_assert",
    b"_Thread_local",
];

/// What makes the quote right behind it that of a wide or Unicode constant or string.
pub const PREFIXES: [&[u8]; 4] = [b"L", b"u", b"U", b"u8"];

/// The punctuators of C, the longer ones first.
pub const PUNCTUATORS: [&[u8]; 54] = [
    b"%:%:", b"...", b"<<=", b">>=", b"->", b"++", b"--", b"<<", b">>", b"<=", b">=", b"==", b"!=",
    b"&&", b"||", b"*=", b"/=", b"%=", b"+=", b"-=", b"&=", b"^=", b"|=", b"##", b"<:", b":>",
    b"<%", b"%>", b"%:", b"[", b"]", b"(", b")", b"{", b"}", b".", b"&", b"*", b"+", b"-", b"~",
    b"!", b"/", b"%", b"<", b">", b"^", b"|", b"?", b":", b";", b"=", b",", b"#",
];

/// The punctuators that are tokens.
const SIGNS: [(&[u8], TokenKind); 43] = [
    (b"[", TokenKind::LeftBracket),
    (b"]", TokenKind::RightBracket),
    (b"(", TokenKind::LeftParen),
    (b")", TokenKind::RightParen),
    (b"{", TokenKind::LeftBrace),
    (b"}", TokenKind::RightBrace),
    (b"++", TokenKind::PlusPlus),
    (b"--", TokenKind::MinusMinus),
    (b"&", TokenKind::Ampersand),
    (b"*", TokenKind::Star),
    (b"+", TokenKind::Plus),
    (b"-", TokenKind::Minus),
    (b"~", TokenKind::Tilde),
    (b"!", TokenKind::Exclamation),
    (b"/", TokenKind::Slash),
    (b"%", TokenKind::Percent),
    (b"<<", TokenKind::LessLess),
    (b">>", TokenKind::GreaterGreater),
    (b"<", TokenKind::LessThan),
    (b">", TokenKind::GreaterThan),
    (b"<=", TokenKind::LessEqual),
    (b">=", TokenKind::GreaterEqual),
    (b"==", TokenKind::EqualEqual),
    (b"!=", TokenKind::ExclamationEqual),
    (b"^", TokenKind::Caret),
    (b"|", TokenKind::Bar),
    (b"&&", TokenKind::AmpersandAmpersand),
    (b"||", TokenKind::BarBar),
    (b"?", TokenKind::Question),
    (b":", TokenKind::Colon),
    (b";", TokenKind::Semicolon),
    (b"=", TokenKind::Equal),
    (b"*=", TokenKind::StarEqual),
    (b"/=", TokenKind::SlashEqual),
    (b"%=", TokenKind::PercentEqual),
    (b"+=", TokenKind::PlusEqual),
    (b"-=", TokenKind::MinusEqual),
    (b"<<=", TokenKind::LessLessEqual),
    (b">>=", TokenKind::GreaterGreaterEqual),
    (b"&=", TokenKind::AmpersandEqual),
    (b"^=", TokenKind::CaretEqual),
    (b"|=", TokenKind::BarEqual),
    (b",", TokenKind::Comma),
];

/// Whether this is a letter with which no keyword begins.
fn begins_no_keyword(b: u8) -> bool
    ensures { IsTrue result → (rest : List ℕ) → word_kind (b ∷ rest) ≡ Kind.Token TokenKind.Name }
{
    matches!(
        b,
        b'h' | b'j' | b'k' | b'm' | b'n' | b'o' | b'p' | b'q' | b'x' | b'y' | b'z'
    )
}

/// What a whole word is.
pub fn word_kind(bytes: &[u8]) -> Kind
    ensures { result ≡ word_kind bytes.now }
{
    if !bytes.is_empty() && begins_no_keyword(bytes[0]) {
        return Kind::Token(TokenKind::Name);
    }
    if let Some(kind) = find_kind(bytes, &KEYWORDS) {
        return Kind::Token(kind);
    }
    if is_one(bytes, &OUTSIDE_WORDS) {
        return Kind::Outside;
    }
    Kind::Token(TokenKind::Name)
}

/// What a punctuator of one byte is with which no longer one begins.
pub fn lone_sign(b: u8) -> Option<TokenKind>
    ensures size { IfSome result (λ kind. (rest : List ℕ) → first_size (b ∷ rest) punctuators ≡ Some 1) }
    ensures kind { IfSome result (λ kind. sign_kind (b ∷ []) ≡ Kind.Token kind) }
{
    match b {
        b'[' => Some(TokenKind::LeftBracket),
        b']' => Some(TokenKind::RightBracket),
        b'(' => Some(TokenKind::LeftParen),
        b')' => Some(TokenKind::RightParen),
        b'{' => Some(TokenKind::LeftBrace),
        b'}' => Some(TokenKind::RightBrace),
        b'~' => Some(TokenKind::Tilde),
        b'?' => Some(TokenKind::Question),
        b';' => Some(TokenKind::Semicolon),
        b',' => Some(TokenKind::Comma),
        _ => None,
    }
}

/// What a punctuator is.
pub fn sign_kind(bytes: &[u8]) -> Kind
    ensures { result ≡ sign_kind bytes.now }
{
    if bytes.len() == 1 {
        if let Some(kind) = lone_sign(bytes[0]) {
            return Kind::Token(kind);
        }
    }
    match find_kind(bytes, &SIGNS) {
        Some(kind) => Kind::Token(kind),
        None => Kind::Outside,
    }
}
