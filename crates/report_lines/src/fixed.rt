// The lines that have a fixed number of words.
ghost use Rattle.std.specs.Prelude.{◌≡◌, [], ◌∷◌, true, false, length, map, codes, IfOk, MatchOption};
ghost use Rattle.std.specs.Fmt.{decimal, signed_decimal};
ghost use Rattle.report_words.specs.Words.{address_word, is_name};
ghost use Rattle.report_words.specs.Shapes.{fit, are_in_range};
ghost use Rattle.report_lines.specs.LineShapes.{cycles_shapes, exit_shapes, never_shapes, bound_shapes, turn_shapes, loop_shapes, region_shapes, share_shapes, scale_shapes, potential_shapes, unit_shapes, flow_shapes};
ghost use Rattle.report_text.specs.Lines.{cycles_line, exit_line, never_line, region_line, loop_line, share_line, scale_line, potential_line, unit_line, flow_line};

use crate::labels::{label, letters};
use crate::values::{amount, byte, integer, place, small, whole};
use code_flow_system::{LoopClaim, Never, Part, Within};
use report_text::Share;
use std::alloc::Global;
use wcc_base::Memory;

// The words of a line, where there are so many.

fn one<'a>(words: &[&'a [u8]]) -> &'a [u8]
    requires { length words.now ≡ 1 }
    ensures { map (λ w. w.now) words.now ≡ result.now ∷ [] }
{
    words[0]
}

fn two<'a>(words: &[&'a [u8]]) -> (&'a [u8], &'a [u8])
    requires { length words.now ≡ 2 }
    ensures { map (λ w. w.now) words.now ≡ result.0.now ∷ result.1.now ∷ [] }
{
    (words[0], words[1])
}

fn three<'a>(words: &[&'a [u8]]) -> (&'a [u8], &'a [u8], &'a [u8])
    requires { length words.now ≡ 3 }
    ensures { map (λ w. w.now) words.now ≡ result.0.now ∷ result.1.now ∷ result.2.now ∷ [] }
{
    (words[0], words[1], words[2])
}

fn four<'a>(words: &[&'a [u8]]) -> (&'a [u8], &'a [u8], &'a [u8], &'a [u8])
    requires { length words.now ≡ 4 }
    ensures { map (λ w. w.now) words.now ≡ result.0.now ∷ result.1.now ∷ result.2.now ∷ result.3.now ∷ [] }
{
    (words[0], words[1], words[2], words[3])
}

// Four words.
#[derive(Clone, Copy)]
struct Quad<'a> {
    first: &'a [u8],
    second: &'a [u8],
    third: &'a [u8],
    fourth: &'a [u8],
}

// The first four of eight words, and the others.
fn eight<'a>(words: &[&'a [u8]]) -> (Quad<'a>, Quad<'a>)
    requires { length words.now ≡ 8 }
    ensures { map (λ w. w.now) words.now ≡ result.0.first.now ∷ result.0.second.now ∷ result.0.third.now ∷ result.0.fourth.now ∷ result.1.first.now ∷ result.1.second.now ∷ result.1.third.now ∷ result.1.fourth.now ∷ [] }
{
    (
        Quad {
            first: words[0],
            second: words[1],
            third: words[2],
            fourth: words[3],
        },
        Quad {
            first: words[4],
            second: words[5],
            third: words[6],
            fourth: words[7],
        },
    )
}

fn never_of(source: &[u8], factor: &[u8], at: &[u8], by: &[u8]) -> (Never, i128)
    requires fits { fit never_shapes (source.now ∷ factor.now ∷ at.now ∷ by.now ∷ []) ≡ true }
    requires in_range { are_in_range never_shapes (source.now ∷ factor.now ∷ at.now ∷ by.now ∷ []) ≡ true }
    ensures { never_line result.0 result.1 ≡ codes "never" ∷ source.now ∷ factor.now ∷ at.now ∷ by.now ∷ [] }
{
    let claim = Never {
        source: small(source),
        factor: small(factor),
        at: place(at),
    };
    (claim, integer(by))
}

/// The claim and the multiplier of a line `never`.
pub fn never(words: &[&[u8]]) -> (Never, i128)
    requires fits { fit never_shapes (map (λ w. w.now) words.now) ≡ true }
    requires in_range { are_in_range never_shapes (map (λ w. w.now) words.now) ≡ true }
    ensures { never_line result.0 result.1 ≡ codes "never" ∷ map (λ w. w.now) words.now }
{
    let (source, factor, at, by) = four(words);
    never_of(source, factor, at, by)
}

fn potential_of(at: &[u8], number: &[u8]) -> (u32, i128)
    requires fits { fit potential_shapes (at.now ∷ number.now ∷ []) ≡ true }
    requires in_range { are_in_range potential_shapes (at.now ∷ number.now ∷ []) ≡ true }
    ensures { potential_line result ≡ codes "potential" ∷ at.now ∷ number.now ∷ [] }
{
    (place(at), integer(number))
}

/// The potential of a line `potential`.
pub fn potential(words: &[&[u8]]) -> (u32, i128)
    requires fits { fit potential_shapes (map (λ w. w.now) words.now) ≡ true }
    requires in_range { are_in_range potential_shapes (map (λ w. w.now) words.now) ≡ true }
    ensures { potential_line result ≡ codes "potential" ∷ map (λ w. w.now) words.now }
{
    let (at, number) = two(words);
    potential_of(at, number)
}

fn flow_of(at: &[u8], number: &[u8], part: &[u8]) -> Part
    requires fits { fit flow_shapes (at.now ∷ number.now ∷ part.now ∷ []) ≡ true }
    requires in_range { are_in_range flow_shapes (at.now ∷ number.now ∷ part.now ∷ []) ≡ true }
    ensures { flow_line result ≡ codes "flow" ∷ at.now ∷ number.now ∷ part.now ∷ [] }
{
    Part {
        at: place(at),
        number: byte(number),
        part: amount(part),
    }
}

/// The listed move of a line `flow`.
pub fn flow(words: &[&[u8]]) -> Part
    requires fits { fit flow_shapes (map (λ w. w.now) words.now) ≡ true }
    requires in_range { are_in_range flow_shapes (map (λ w. w.now) words.now) ≡ true }
    ensures { flow_line result ≡ codes "flow" ∷ map (λ w. w.now) words.now }
{
    let (at, number, part) = three(words);
    flow_of(at, number, part)
}

/// The number of a line `cycles`.
pub fn cycles(words: &[&[u8]]) -> u64
    requires fits { fit cycles_shapes (map (λ w. w.now) words.now) ≡ true }
    requires in_range { are_in_range cycles_shapes (map (λ w. w.now) words.now) ≡ true }
    ensures { cycles_line result ≡ codes "cycles" ∷ map (λ w. w.now) words.now }
{
    let number = one(words);
    cycles_of(number)
}

fn cycles_of(number: &[u8]) -> u64
    requires fits { fit cycles_shapes (number.now ∷ []) ≡ true }
    requires in_range { are_in_range cycles_shapes (number.now ∷ []) ≡ true }
    ensures { cycles_line result ≡ codes "cycles" ∷ number.now ∷ [] }
{
    whole(number)
}

/// The address of a line `exit`.
pub fn exit(words: &[&[u8]]) -> u32
    requires fits { fit exit_shapes (map (λ w. w.now) words.now) ≡ true }
    ensures { exit_line result ≡ codes "exit" ∷ map (λ w. w.now) words.now }
{
    let at = one(words);
    exit_of(at)
}

fn exit_of(at: &[u8]) -> u32
    requires fits { fit exit_shapes (at.now ∷ []) ≡ true }
    ensures { exit_line result ≡ codes "exit" ∷ at.now ∷ [] }
{
    place(at)
}

/// The number of a line `scale`.
pub fn scale(words: &[&[u8]]) -> u64
    requires fits { fit scale_shapes (map (λ w. w.now) words.now) ≡ true }
    requires in_range { are_in_range scale_shapes (map (λ w. w.now) words.now) ≡ true }
    ensures { scale_line result ≡ codes "scale" ∷ map (λ w. w.now) words.now }
{
    let number = one(words);
    scale_of(number)
}

fn scale_of(number: &[u8]) -> u64
    requires fits { fit scale_shapes (number.now ∷ []) ≡ true }
    requires in_range { are_in_range scale_shapes (number.now ∷ []) ≡ true }
    ensures { scale_line result ≡ codes "scale" ∷ number.now ∷ [] }
{
    whole(number)
}

// The source loop, the factor and the bounds of a line `loop`.
fn bounds_of(words: &Quad) -> (u32, u32, u32, u32)
    requires fits { fit bound_shapes (words.now.first.now ∷ words.now.second.now ∷ words.now.third.now ∷ words.now.fourth.now ∷ []) ≡ true }
    requires in_range { are_in_range bound_shapes (words.now.first.now ∷ words.now.second.now ∷ words.now.third.now ∷ words.now.fourth.now ∷ []) ≡ true }
    ensures first { decimal result.0 ≡ words.now.first.now }
    ensures second { decimal result.1 ≡ words.now.second.now }
    ensures third { decimal result.2 ≡ words.now.third.now }
    ensures fourth { decimal result.3 ≡ words.now.fourth.now }
{
    (
        small(words.first),
        small(words.second),
        small(words.third),
        small(words.fourth),
    )
}

// The header, the back jump and the multipliers of a line `loop`.
fn turns_of(words: &Quad) -> (u32, u32, i128, i128)
    requires fits { fit turn_shapes (words.now.first.now ∷ words.now.second.now ∷ words.now.third.now ∷ words.now.fourth.now ∷ []) ≡ true }
    requires in_range { are_in_range turn_shapes (words.now.first.now ∷ words.now.second.now ∷ words.now.third.now ∷ words.now.fourth.now ∷ []) ≡ true }
    ensures first { address_word result.0 ≡ words.now.first.now }
    ensures second { address_word result.1 ≡ words.now.second.now }
    ensures third { signed_decimal result.2 ≡ words.now.third.now }
    ensures fourth { signed_decimal result.3 ≡ words.now.fourth.now }
{
    (
        place(words.first),
        place(words.second),
        integer(words.third),
        integer(words.fourth),
    )
}

fn loop_of(front: &Quad, back: &Quad) -> (LoopClaim, (i128, i128))
    requires fits { fit loop_shapes (front.now.first.now ∷ front.now.second.now ∷ front.now.third.now ∷ front.now.fourth.now ∷ back.now.first.now ∷ back.now.second.now ∷ back.now.third.now ∷ back.now.fourth.now ∷ []) ≡ true }
    requires in_range { are_in_range loop_shapes (front.now.first.now ∷ front.now.second.now ∷ front.now.third.now ∷ front.now.fourth.now ∷ back.now.first.now ∷ back.now.second.now ∷ back.now.third.now ∷ back.now.fourth.now ∷ []) ≡ true }
    ensures { loop_line result.0 result.1 ≡ codes "loop" ∷ front.now.first.now ∷ front.now.second.now ∷ front.now.third.now ∷ front.now.fourth.now ∷ back.now.first.now ∷ back.now.second.now ∷ back.now.third.now ∷ back.now.fourth.now ∷ [] }
{
    let (source, factor, min, max) = bounds_of(front);
    let (header, back, least, most) = turns_of(back);
    let claim = LoopClaim {
        source,
        factor,
        min,
        max,
        header,
        back,
    };
    (claim, (least, most))
}

/// The claim and the multipliers of a line `loop`.
pub fn loop_claim(words: &[&[u8]]) -> (LoopClaim, (i128, i128))
    requires fits { fit loop_shapes (map (λ w. w.now) words.now) ≡ true }
    requires in_range { are_in_range loop_shapes (map (λ w. w.now) words.now) ≡ true }
    ensures { loop_line result.0 result.1 ≡ codes "loop" ∷ map (λ w. w.now) words.now }
{
    let (front, back) = eight(words);
    loop_of(&front, &back)
}

fn region_of(first: &[u8], end: &[u8], set: &[u8]) -> Within
    requires fits { fit region_shapes (first.now ∷ end.now ∷ set.now ∷ []) ≡ true }
    ensures { region_line result ≡ codes "region" ∷ first.now ∷ end.now ∷ set.now ∷ [] }
{
    let (flash, spm, ram) = letters(set);
    Within {
        first: place(first),
        end: place(end),
        flash,
        spm,
        ram,
    }
}

/// The claim of a line `region`.
pub fn region(words: &[&[u8]]) -> Within
    requires { fit region_shapes (map (λ w. w.now) words.now) ≡ true }
    ensures { region_line result ≡ codes "region" ∷ map (λ w. w.now) words.now }
{
    let (first, end, set) = three(words);
    region_of(first, end, set)
}

fn share_of(
    alloc: Global,
    name: &[u8],
    first: &[u8],
    end: &[u8],
    part: &[u8],
) -> Result<Share, Memory>
    requires fits { fit share_shapes (name.now ∷ first.now ∷ end.now ∷ part.now ∷ []) ≡ true }
    requires in_range { are_in_range share_shapes (name.now ∷ first.now ∷ end.now ∷ part.now ∷ []) ≡ true }
    ensures same { IfOk result (λ share. share_line share ≡ codes "share" ∷ name.now ∷ first.now ∷ end.now ∷ part.now ∷ []) }
    ensures named { IfOk result (λ share. MatchOption share.name (Unit {0}) (λ n. is_name n ≡ true)) }
{
    let first = place(first);
    let end = place(end);
    let part = amount(part);
    let name = label(alloc, name)?;
    Ok(Share {
        name,
        first,
        end,
        part,
    })
}

/// The share of a line `share`.
pub fn share(alloc: Global, words: &[&[u8]]) -> Result<Share, Memory>
    requires fits { fit share_shapes (map (λ w. w.now) words.now) ≡ true }
    requires in_range { are_in_range share_shapes (map (λ w. w.now) words.now) ≡ true }
    ensures same { IfOk result (λ share. share_line share ≡ codes "share" ∷ map (λ w. w.now) words.now) }
    ensures named { IfOk result (λ share. MatchOption share.name (Unit {0}) (λ n. is_name n ≡ true)) }
{
    let (name, first, end, part) = four(words);
    share_of(alloc, name, first, end, part)
}

fn positive_unit(number: &[u8]) -> u64
    requires fits { fit (unit_shapes true) (number.now ∷ []) ≡ true }
    requires in_range { are_in_range (unit_shapes true) (number.now ∷ []) ≡ true }
    ensures { unit_line result ≡ codes "unit" ∷ number.now ∷ [] }
{
    whole(number)
}

fn zero_unit(number: &[u8]) -> u64
    requires fits { fit (unit_shapes false) (number.now ∷ []) ≡ true }
    requires in_range { are_in_range (unit_shapes false) (number.now ∷ []) ≡ true }
    ensures { unit_line result ≡ codes "unit" ∷ number.now ∷ [] }
{
    whole(number)
}

fn unit_of(greatest: bool, number: &[u8]) -> u64
    requires fits { fit (unit_shapes greatest) (number.now ∷ []) ≡ true }
    requires in_range { are_in_range (unit_shapes greatest) (number.now ∷ []) ≡ true }
    ensures { unit_line result ≡ codes "unit" ∷ number.now ∷ [] }
{
    if greatest {
        return positive_unit(number);
    }
    zero_unit(number)
}

/// The number of a line `unit`.
pub fn unit(greatest: bool, words: &[&[u8]]) -> u64
    requires fits { fit (unit_shapes greatest) (map (λ w. w.now) words.now) ≡ true }
    requires in_range { are_in_range (unit_shapes greatest) (map (λ w. w.now) words.now) ≡ true }
    ensures { unit_line result ≡ codes "unit" ∷ map (λ w. w.now) words.now }
{
    let number = one(words);
    unit_of(greatest, number)
}
