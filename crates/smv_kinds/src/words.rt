//! Operators on words.

ghost use Rattle.std.specs.Prelude.{◌≡◌, ◌-◌, ◌^◌, IsTrue, true};
ghost use Rattle.smv_value.specs.Results.{is_width, natural};
ghost use Rattle.smv_kinds.specs.Kinds.{bits_from, concatenated, constant_in, constant_within, constant_word, constant_word_of, extended_by, is_amount, is_within, resized_to, selected, shifted, size, to_boolean, to_word, with_amount, with_sign, word_in};

use crate::intervals::{Span, integers_in};
use crate::joining::{boolean_if, is_integer, is_set, kind_if};
use crate::{Kind, KindRule, Operand};

// A word, if one is so wide.
fn word_in(signed: bool, width: u64) -> Result<Kind, KindRule>
    ensures { result ≡ word_in signed width }
{
    if is_width(width) {
        Ok(Kind::Word {
            signed,
            width: width as u32,
        })
    } else {
        Err(KindRule::WordWidth)
    }
}

fn is_width(width: u64) -> bool
    ensures { result ≡ is_width width }
{
    1 <= width && width <= 128
}

// The number, or 0 where it is negative.
fn natural(z: i64) -> u64
    ensures { result ≡ natural z }
{
    if z < 0 { 0 } else { z as u64 }
}

// `<< >>`
pub fn shifted(a: Kind, b: Kind) -> Kind
    ensures { result ≡ shifted a b }
{
    match a {
        Kind::Word { .. } => kind_if(is_amount(b), a),
        _ => Kind::Nothing,
    }
}

// What may say how far to shift.
fn is_amount(kind: Kind) -> bool
    ensures { result ≡ is_amount kind }
{
    match kind {
        Kind::Word { signed, .. } => !signed,
        _ => is_integer(kind),
    }
}

// `a :: b`
pub fn concatenated(a: Kind, b: Kind) -> Result<Kind, KindRule>
    ensures { result ≡ concatenated a b }
{
    match (a, b) {
        (
            Kind::Word { width, .. },
            Kind::Word {
                width: low_width,
                ..
            },
        ) => word_in(false, u64::from(width) + u64::from(low_width)),
        _ => Err(KindRule::TypeMismatch),
    }
}

// `signed`, and `unsigned`
pub fn with_sign(signed: bool, a: Kind) -> Kind
    ensures { result ≡ with_sign signed a }
{
    match a {
        Kind::Word { width, .. } => Kind::Word { signed, width },
        _ => Kind::Nothing,
    }
}

// `sizeof`
pub fn size(a: Kind) -> Result<Kind, KindRule>
    ensures { result ≡ size a }
{
    match a {
        Kind::Word { width, .. } => integers_in(Span {
            low: i64::from(width),
            high: i64::from(width),
        }),
        _ => Err(KindRule::TypeMismatch),
    }
}

// `word1`
pub fn to_word(a: Kind) -> Kind
    ensures { result ≡ to_word a }
{
    match a {
        Kind::Boolean => Kind::Word {
            signed: false,
            width: 1,
        },
        _ => Kind::Nothing,
    }
}

// `bool`
pub fn to_boolean(a: Kind) -> Kind
    ensures { result ≡ to_boolean a }
{
    match a {
        Kind::Word { width, .. } => boolean_if(width == 1),
        _ => Kind::Nothing,
    }
}

// `extend`
pub fn extended(a: Operand, by: Operand) -> Result<Kind, KindRule>
    ensures { result ≡ with_amount extended_by a by }
{
    match a.kind {
        Kind::Word { signed, width } => if is_set(by.kind) {
            Err(KindRule::TypeMismatch)
        } else {
            extended_by(signed, width, by.constant)
        },
        _ => Err(KindRule::TypeMismatch),
    }
}

fn extended_by(signed: bool, width: u32, by: Option<i64>) -> Result<Kind, KindRule>
    ensures { result ≡ extended_by signed width by }
{
    match by {
        None => Err(KindRule::NotConstant),
        Some(n) => if 0 <= n {
            word_in(signed, u64::from(width) + natural(n))
        } else {
            Err(KindRule::WordWidth)
        },
    }
}

// `resize`
pub fn resized(a: Operand, to: Operand) -> Result<Kind, KindRule>
    ensures { result ≡ with_amount resized_to a to }
{
    match a.kind {
        Kind::Word { signed, width } => if is_set(to.kind) {
            Err(KindRule::TypeMismatch)
        } else {
            resized_to(signed, width, to.constant)
        },
        _ => Err(KindRule::TypeMismatch),
    }
}

// A signed word loses no bits.
fn resized_to(signed: bool, width: u32, to: Option<i64>) -> Result<Kind, KindRule>
    ensures { result ≡ resized_to signed width to }
{
    match to {
        None => Err(KindRule::NotConstant),
        Some(n) => if !signed || i64::from(width) <= n {
            word_in(signed, natural(n))
        } else {
            Err(KindRule::WordWidth)
        },
    }
}

// `uwconst`, and `swconst`
pub fn constant_word(signed: bool, z: Operand, width: Operand) -> Result<Kind, KindRule>
    ensures { result ≡ constant_word signed z width }
{
    if is_set(z.kind) || is_set(width.kind) {
        return Err(KindRule::TypeMismatch);
    }
    match width.constant {
        None => Err(KindRule::NotConstant),
        Some(n) => constant_in(signed, z.constant, natural(n)),
    }
}

fn constant_in(signed: bool, z: Option<i64>, width: u64) -> Result<Kind, KindRule>
    ensures { result ≡ constant_in signed z width }
{
    if is_width(width) {
        constant_within(signed, z, width as u32)
    } else {
        Err(KindRule::WordWidth)
    }
}

fn constant_within(signed: bool, z: Option<i64>, width: u32) -> Result<Kind, KindRule>
    requires { IsTrue (is_width width) }
    ensures { result ≡ constant_within signed width z }
{
    match z {
        None => Err(KindRule::NotConstant),
        Some(z) => if is_within(signed, width, z) {
            Ok(Kind::Word { signed, width })
        } else {
            Err(KindRule::WordWidth)
        },
    }
}

// Whether a word of this type is as much.
fn is_within(signed: bool, width: u32, z: i64) -> bool
    requires { IsTrue (is_width width) }
    ensures { result ≡ is_within signed width z }
{
    if signed {
        is_within_signed(width, z)
    } else {
        0 <= z && u128::from(z.unsigned_abs()) <= all_ones(width)
    }
}

#[tactic(auto, using(crate::proofs::Within::negative_within, crate::proofs::Within::positive_within))]
fn is_within_signed(width: u32, z: i64) -> bool
    requires { IsTrue (is_width width) }
    ensures { result ≡ is_within true width z }
{
    let half = half_of(width);
    let size = u128::from(z.unsigned_abs());
    if z < 0 { size <= half } else { size < half }
}

fn half_of(width: u32) -> u128
    requires { IsTrue (is_width width) }
    ensures { result ≡ 2 ^ (width - 1) }
{
    1 << (width - 1)
}

// The number with the lowest bits set, so many.
fn all_ones(width: u32) -> u128
    requires { IsTrue (is_width width) }
    ensures { result ≡ 2 ^ width - 1 }
{
    u128::MAX >> (128 - width)
}

// `a[high:low]`
pub fn selected(a: Operand, high: Operand, low: Operand) -> Result<Kind, KindRule>
    ensures { result ≡ selected a high low }
{
    match a.kind {
        Kind::Word { width, .. } => if is_set(high.kind) || is_set(low.kind) {
            Err(KindRule::TypeMismatch)
        } else {
            bits_from(width, high.constant, low.constant)
        },
        _ => Err(KindRule::TypeMismatch),
    }
}

// Bits `high` to `low`, both among them.
fn bits_from(width: u32, high: Option<i64>, low: Option<i64>) -> Result<Kind, KindRule>
    ensures { result ≡ bits_from width high low }
{
    match (high, low) {
        (Some(high), Some(low)) => if 0 <= low && low <= high && high < i64::from(width) {
            Ok(Kind::Word {
                signed: false,
                width: (high as u32 - low as u32) + 1,
            })
        } else {
            Err(KindRule::BadSelection)
        },
        _ => Err(KindRule::NotConstant),
    }
}
