// The word of a statement at the start of a text, by its letters: first the first one, then all of them.
ghost use Rattle.std.specs.Prelude.{◌≡◌, ◌++◌, IfSome};
ghost use Rattle.gq_program.specs.Statement_table.{word_of};
ghost use Rattle.gq_asm.specs.Word_prefixes.{BeginsWith};

use gq_model::program::{Form, Operator, Width};
use gq_program::{Bare, Shape, WithAmount, WithBytes, WithNumber, WithSlot};

/// This statement, whose word stands at the start of a text, and what follows it.
#[inline(always)]
fn found<'a>(text: &[u8], shape: Shape, rest: &'a [u8]) -> Option<(Shape, &'a [u8])>
    requires { text.now ≡ word_of shape ++ rest.now }
    ensures { IfSome result (λ p. BeginsWith text.now p.0 p.1.now) }
{
    let _text = text;
    Some((shape, rest))
}

/// `add` and `and`.
#[inline(always)]
fn of_a(text: &[u8]) -> Option<(Shape, &[u8])>
    ensures { IfSome result (λ p. BeginsWith text.now p.0 p.1.now) }
{
    match text {
        [b'a', b'd', b'd', rest @ ..] => {
            found(text, Shape::Plain(Bare::Combine(Operator::Add)), rest)
        }
        [b'a', b'n', b'd', rest @ ..] => {
            found(text, Shape::Plain(Bare::Combine(Operator::And)), rest)
        }
        _ => None,
    }
}

/// `call` and `close`.
#[inline(always)]
fn of_c(text: &[u8]) -> Option<(Shape, &[u8])>
    ensures { IfSome result (λ p. BeginsWith text.now p.0 p.1.now) }
{
    match text {
        [b'c', b'a', b'l', b'l', rest @ ..] => found(text, Shape::Slot(WithSlot::Call), rest),
        [b'c', b'l', b'o', b's', b'e', rest @ ..] => {
            found(text, Shape::Slot(WithSlot::Close), rest)
        }
        _ => None,
    }
}

/// `div`, `drop` and `dup`.
#[inline(always)]
fn of_d(text: &[u8]) -> Option<(Shape, &[u8])>
    ensures { IfSome result (λ p. BeginsWith text.now p.0 p.1.now) }
{
    match text {
        [b'd', b'u', b'p', rest @ ..] => found(text, Shape::Plain(Bare::Dup), rest),
        [b'd', b'r', b'o', b'p', rest @ ..] => found(text, Shape::Plain(Bare::Drop), rest),
        [b'd', b'i', b'v', rest @ ..] => found(text, Shape::Number(WithNumber::Divide), rest),
        _ => None,
    }
}

/// `in` and `index`.
#[inline(always)]
fn of_i(text: &[u8]) -> Option<(Shape, &[u8])>
    ensures { IfSome result (λ p. BeginsWith text.now p.0 p.1.now) }
{
    match text {
        [b'i', b'n', b'd', b'e', b'x', rest @ ..] => {
            found(text, Shape::Number(WithNumber::Index), rest)
        }
        [b'i', b'n', rest @ ..] => found(text, Shape::Number(WithNumber::Input), rest),
        _ => None,
    }
}

/// `load`, `load4` and `lt`.
#[inline(always)]
fn of_l(text: &[u8]) -> Option<(Shape, &[u8])>
    ensures { IfSome result (λ p. BeginsWith text.now p.0 p.1.now) }
{
    match text {
        [b'l', b't', rest @ ..] => found(text, Shape::Plain(Bare::Combine(Operator::Less)), rest),
        [b'l', b'o', b'a', b'd', b'4', rest @ ..] => {
            found(text, Shape::Bytes(WithBytes::Load(Width::Word)), rest)
        }
        [b'l', b'o', b'a', b'd', rest @ ..] => {
            found(text, Shape::Bytes(WithBytes::Load(Width::Byte)), rest)
        }
        _ => None,
    }
}

/// `mod` and `mul`.
#[inline(always)]
fn of_m(text: &[u8]) -> Option<(Shape, &[u8])>
    ensures { IfSome result (λ p. BeginsWith text.now p.0 p.1.now) }
{
    match text {
        [b'm', b'u', b'l', rest @ ..] => {
            found(text, Shape::Plain(Bare::Combine(Operator::Multiply)), rest)
        }
        [b'm', b'o', b'd', rest @ ..] => found(text, Shape::Number(WithNumber::Modulo), rest),
        _ => None,
    }
}

/// `set`, `slice`, `space`, `store`, `store4` and `sub`.
#[inline(always)]
fn of_s(text: &[u8]) -> Option<(Shape, &[u8])>
    ensures { IfSome result (λ p. BeginsWith text.now p.0 p.1.now) }
{
    match text {
        [b's', b'e', b't', rest @ ..] => found(text, Shape::Number(WithNumber::Set), rest),
        [b's', b'u', b'b', rest @ ..] => {
            found(text, Shape::Plain(Bare::Combine(Operator::Subtract)), rest)
        }
        [b's', b'l', b'i', b'c', b'e', rest @ ..] => {
            found(text, Shape::Amount(WithAmount::Make(Form::Slice)), rest)
        }
        [b's', b't', b'o', b'r', b'e', b'4', rest @ ..] => {
            found(text, Shape::Bytes(WithBytes::Store(Width::Word)), rest)
        }
        [b's', b't', b'o', b'r', b'e', rest @ ..] => {
            found(text, Shape::Bytes(WithBytes::Store(Width::Byte)), rest)
        }
        [b's', b'p', b'a', b'c', b'e', rest @ ..] => {
            found(text, Shape::Amount(WithAmount::Make(Form::Space)), rest)
        }
        _ => None,
    }
}

/// The statement whose word stands at the start of a text, and what follows that, where it is one that is used often. What follows may go on with
/// letters: then the word is another.
#[inline(always)]
pub fn prefix_shape(text: &[u8]) -> Option<(Shape, &[u8])>
    ensures { IfSome result (λ p. BeginsWith text.now p.0 p.1.now) }
{
    match text {
        [b'p', b'u', b's', b'h', rest @ ..] => found(text, Shape::Number(WithNumber::Push), rest),
        [b'g', b'e', b't', rest @ ..] => found(text, Shape::Number(WithNumber::Get), rest),
        [b'a', ..] => of_a(text),
        [b'd', ..] => of_d(text),
        [b'l', ..] => of_l(text),
        [b'm', ..] => of_m(text),
        [b's', ..] => of_s(text),
        [b'f', b'r', b'e', b'e', rest @ ..] => found(text, Shape::Slot(WithSlot::Free), rest),
        [b'i', ..] => of_i(text),
        [b'c', ..] => of_c(text),
        [b'e', b'q', rest @ ..] => found(text, Shape::Plain(Bare::Combine(Operator::Equal)), rest),
        [b'o', b'u', b't', rest @ ..] => found(text, Shape::Out, rest),
        [b'o', b'p', b'e', b'n', rest @ ..] => found(text, Shape::Open, rest),
        [b'b', b'l', b'o', b'c', b'k', rest @ ..] => {
            found(text, Shape::Amount(WithAmount::Make(Form::Block)), rest)
        }
        _ => None,
    }
}
