// The longest piece at a place, form by form.
ghost use Rattle.std.specs.Prelude.{◌≡◌, ◌≢◌, ◌↔◌, IsTrue, ◌<◌, ◌≤◌, ◌+◌, ◌-◌, ◌⊎◌, ℕ, true, IfSome, IfNone, length, slice_index, codes};
ghost use Rattle.c_tree.specs.Bytes.{IsBlankByte, IsDigit, IsLetter, IsNameByte, SpansOne, Stands};
ghost use Rattle.c_tree.specs.Pragmas.{IsPragmaWord};
ghost use Rattle.c_lexer.specs.Bytes.{EndsBefore};
ghost use Rattle.c_lexer.specs.Comments.{IsComment};
ghost use Rattle.c_lexer.specs.Forms.{first_size, BeginsNumber, NoPiece, prefixes, punctuators};
ghost use Rattle.c_lexer.specs.Kinds.{IsKind, IsLineKind, IsMarker};
ghost use Rattle.c_lexer.specs.Cut.{IsFresh, StandsAt};

use crate::bytes::{is_blank, is_digit, is_letter, is_name_byte};
use crate::pieces::{Form, Kind, Piece};
use crate::pragmas::pragma_kind;
use crate::scan::{blanks_end, comment_end, line_end, number_end, quoted_end, word_end};
use crate::texts::{first_size, has, is_on_line, is_one, is_span, stands};
use crate::words::{PREFIXES, PUNCTUATORS, lone_sign, sign_kind, word_kind};
use c_tree::token::TokenKind;
use parse_tokens::{behind_blanks, directive_text, is_character, is_integer, read_operator};

/// Whether a line begins behind blanks.
fn fresh_behind_blanks(source: &[u8], at: usize, end: usize, fresh: bool) -> bool
    requires { end ≤ length source.now }
    ensures { IsFresh Form.Blank fresh result source.now at end }
{
    !is_on_line(source, at, end) || fresh
}

/// The blanks that stand there.
fn blank(source: &[u8], at: usize, fresh: bool) -> Piece
    requires within { at < length source.now }
    requires first { IsBlankByte (slice_index source.now at) }
    ensures { StandsAt result fresh source.now at }
{
    let end = blanks_end(source, at);
    Piece {
        form: Form::Blank,
        kind: Kind::Blank,
        end,
        fresh: fresh_behind_blanks(source, at, end, fresh),
    }
}

/// The comment that ends there.
fn comment(source: &[u8], at: usize, end: usize, fresh: bool) -> Piece
    requires { IsComment source.now at end }
    ensures { StandsAt result fresh source.now at }
{
    Piece {
        form: Form::Comment,
        kind: Kind::Comment,
        end,
        fresh,
    }
}

fn character_kind(source: &[u8], at: usize, end: usize) -> Kind
    requires within { end ≤ length source.now }
    requires some { at + 2 < end }
    requires opens { slice_index source.now at ≡ 39 }
    requires closes { slice_index source.now (end - 1) ≡ 39 }
    ensures { IsKind Form.Character result source.now at end }
{
    if is_character(source, at, end - 1) {
        Kind::Token(TokenKind::Character)
    } else {
        Kind::Outside
    }
}

/// The constant in single quotes that stands there.
fn character(source: &[u8], at: usize, fresh: bool) -> Option<Piece>
    requires within { at < length source.now }
    requires first { slice_index source.now at ≡ 39 }
    ensures found { IfSome result (λ piece. StandsAt piece fresh source.now at) }
    ensures none { IfNone result (NoPiece fresh source.now at) }
{
    let Some(end) = quoted_end(source, at, b'\'') else {
        return None;
    };
    if end <= at + 2 {
        return None;
    }
    Some(Piece {
        form: Form::Character,
        kind: character_kind(source, at, end),
        end,
        fresh: false,
    })
}

/// The string that stands there.
fn string(source: &[u8], at: usize, fresh: bool) -> Option<Piece>
    requires within { at < length source.now }
    requires first { slice_index source.now at ≡ 34 }
    ensures found { IfSome result (λ piece. StandsAt piece fresh source.now at) }
    ensures none { IfNone result (NoPiece fresh source.now at) }
{
    let Some(end) = quoted_end(source, at, b'"') else {
        return None;
    };
    Some(Piece {
        form: Form::String,
        kind: Kind::Outside,
        end,
        fresh: false,
    })
}

fn number_kind(source: &[u8], at: usize, end: usize) -> Kind
    requires within { end ≤ length source.now }
    requires some { at < end }
    ensures { IsKind Form.Number result source.now at end }
{
    if is_integer(source, at, end) {
        Kind::Token(TokenKind::Number)
    } else {
        Kind::Outside
    }
}

/// The preprocessing number that stands there.
fn number(source: &[u8], at: usize, fresh: bool) -> Piece
    requires within { at < length source.now }
    requires first { BeginsNumber source.now at (length source.now) }
    ensures { StandsAt result fresh source.now at }
{
    let end = number_end(source, at + 1);
    Piece {
        form: Form::Number,
        kind: number_kind(source, at, end),
        end,
        fresh: false,
    }
}

fn ends_word(line: &[u8], end: usize) -> bool
    ensures { IsTrue result ↔ (IsNameByte (slice_index line.now end) → ⊥) }
{
    end >= line.len() || !is_name_byte(line[end])
}

/// Whether the line goes on with `pragma` as a whole word.
fn is_pragma_word(line: &[u8]) -> bool
    ensures { IsTrue result ↔ IsPragmaWord line.now }
{
    stands(line, 0, b"pragma") && ends_word(line, 6)
}

/// Whether an empty directive or a line marker goes on so.
fn is_marker(line: &[u8]) -> bool
    ensures { IsTrue result ↔ IsMarker line.now }
{
    line.is_empty() || is_digit(line[0]) || stands(line, 0, b"line")
}

/// What a directive is by the line behind its number sign and blanks.
fn line_kind(line: &[u8]) -> Kind
    ensures { IsLineKind result line.now }
{
    if is_pragma_word(line) {
        pragma_kind(directive_text(line))
    } else if is_marker(line) {
        Kind::Dropped
    } else {
        Kind::Outside
    }
}

/// The line of a directive that begins there.
fn directive(source: &[u8], at: usize) -> Piece
    requires within { at < length source.now }
    requires first { slice_index source.now at ≡ 35 }
    ensures { StandsAt result true source.now at }
{
    let end = line_end(source, at + 1);
    Piece {
        form: Form::Directive,
        kind: line_kind(behind_blanks(&source[at + 1..end])),
        end,
        fresh: false,
    }
}

/// The pragma operator whose word stands there.
fn operator(source: &[u8], at: usize, fresh: bool) -> Option<Piece>
    requires within { at + 7 ≤ length source.now }
    requires word { Stands source.now at (codes "_Pragma") }
    requires whole { EndsBefore IsNameByte source.now (at + 7) }
    ensures found { IfSome result (λ piece. StandsAt piece fresh source.now at) }
    ensures none { IfNone result (NoPiece fresh source.now at) }
{
    let Some(found) = read_operator(source, at) else {
        return None;
    };
    Some(Piece {
        form: Form::Operator,
        kind: pragma_kind(found.text),
        end: found.end,
        fresh: false,
    })
}

fn is_prefix(source: &[u8], at: usize, end: usize) -> bool
    requires ordered { at ≤ end }
    requires within { end ≤ length source.now }
    ensures { IsTrue result ↔ SpansOne source.now at end prefixes }
{
    is_one(&source[at..end], &PREFIXES)
}

/// Whether a quote stands right behind a prefix.
fn is_prefixed(source: &[u8], at: usize, end: usize) -> bool
    requires ordered { at ≤ end }
    requires within { end ≤ length source.now }
    ensures here { IsTrue result ↔ (SpansOne source.now at end prefixes × ((slice_index source.now end ≡ 39) ⊎ (slice_index source.now end ≡ 34))) }
    ensures within { IsTrue result → end < length source.now }
{
    (has(source, end, b'\'') || has(source, end, b'"')) && is_prefix(source, at, end)
}

/// The word, the pragma operator or the prefix with its quote that stands there.
fn word(source: &[u8], at: usize, fresh: bool) -> Option<Piece>
    requires within { at < length source.now }
    requires first { IsLetter (slice_index source.now at) }
    ensures found { IfSome result (λ piece. StandsAt piece fresh source.now at) }
    ensures none { IfNone result (NoPiece fresh source.now at) }
{
    let end = word_end(source, at);
    if is_span(source, at, end, b"_Pragma") {
        return operator(source, at, fresh);
    }
    if is_prefixed(source, at, end) {
        return Some(Piece {
            form: Form::PrefixedQuote,
            kind: Kind::Outside,
            end: end + 1,
            fresh: false,
        });
    }
    Some(Piece {
        form: Form::Word,
        kind: word_kind(&source[at..end]),
        end,
        fresh: false,
    })
}

/// The size of the longest punctuator with which the bytes begin.
fn punctuator_size(rest: &[u8]) -> Option<usize>
    ensures { result ≡ first_size rest.now punctuators }
{
    if !rest.is_empty() && lone_sign(rest[0]).is_some() {
        return Some(1);
    }
    first_size(rest, &PUNCTUATORS)
}

/// Where the longest punctuator ends that begins there.
fn punctuator_end(source: &[u8], at: usize) -> Option<usize>
    requires { at < length source.now }
    ensures found { IfSome result (λ end. (at < end) × (end ≤ length source.now) × SpansOne source.now at end punctuators) }
    ensures longest { IfSome result (λ end. (further : ℕ) → further ≤ length source.now → SpansOne source.now at further punctuators → further ≤ end) }
    ensures none { IfNone result ((end : ℕ) → end ≤ length source.now → SpansOne source.now at end punctuators → ⊥) }
{
    match punctuator_size(&source[at..]) {
        Some(size) => Some(at + size),
        None => None,
    }
}

/// The punctuator that stands there.
fn punctuator(source: &[u8], at: usize, fresh: bool) -> Option<Piece>
    requires within { at < length source.now }
    requires no_blank { ¬ IsBlankByte (slice_index source.now at) }
    requires no_letter { ¬ IsLetter (slice_index source.now at) }
    requires no_digit { ¬ IsDigit (slice_index source.now at) }
    requires no_quote { (slice_index source.now at ≢ 39) × (slice_index source.now at ≢ 34) }
    requires no_comment { (end : ℕ) → IsComment source.now at end → ⊥ }
    requires no_number { (end : ℕ) → BeginsNumber source.now at end → ⊥ }
    requires no_directive { fresh ≡ true → slice_index source.now at ≢ 35 }
    ensures found { IfSome result (λ piece. StandsAt piece fresh source.now at) }
    ensures none { IfNone result (NoPiece fresh source.now at) }
{
    if stands(source, at, b"/*") {
        return None;
    }
    let Some(end) = punctuator_end(source, at) else {
        return None;
    };
    Some(Piece {
        form: Form::Punctuator,
        kind: sign_kind(&source[at..end]),
        end,
        fresh: false,
    })
}

/// Whether a point with a digit behind it stands there.
fn is_point_and_digit(source: &[u8], at: usize) -> bool
    requires { at < length source.now }
    ensures here { IsTrue result ↔ ((slice_index source.now at ≡ 46) × IsDigit (slice_index source.now (at + 1))) }
    ensures within { IsTrue result → at + 1 < length source.now }
{
    source[at] == b'.' && at + 1 < source.len() && is_digit(source[at + 1])
}

/// The comment, the number that begins with a point or the punctuator that stands there.
fn mark(source: &[u8], at: usize, fresh: bool) -> Option<Piece>
    requires within { at < length source.now }
    requires no_blank { ¬ IsBlankByte (slice_index source.now at) }
    requires no_letter { ¬ IsLetter (slice_index source.now at) }
    requires no_digit { ¬ IsDigit (slice_index source.now at) }
    requires no_quote { (slice_index source.now at ≢ 39) × (slice_index source.now at ≢ 34) }
    requires no_directive { fresh ≡ true → slice_index source.now at ≢ 35 }
    ensures found { IfSome result (λ piece. StandsAt piece fresh source.now at) }
    ensures none { IfNone result (NoPiece fresh source.now at) }
{
    if let Some(end) = comment_end(source, at) {
        return Some(comment(source, at, end, fresh));
    }
    if is_point_and_digit(source, at) {
        return Some(number(source, at, fresh));
    }
    punctuator(source, at, fresh)
}

/// The longest piece that begins there; `fresh` where only blanks and comments stand before it on its line.
pub fn piece_at(source: &[u8], at: usize, fresh: bool) -> Option<Piece>
    requires { at < length source.now }
    ensures found { IfSome result (λ piece. StandsAt piece fresh source.now at) }
    ensures none { IfNone result (NoPiece fresh source.now at) }
{
    let b = source[at];
    if is_blank(b) {
        return Some(blank(source, at, fresh));
    }
    if is_letter(b) {
        return word(source, at, fresh);
    }
    if is_digit(b) {
        return Some(number(source, at, fresh));
    }
    if b == b'\'' {
        return character(source, at, fresh);
    }
    if b == b'"' {
        return string(source, at, fresh);
    }
    if fresh && b == b'#' {
        return Some(directive(source, at));
    }
    mark(source, at, fresh)
}
