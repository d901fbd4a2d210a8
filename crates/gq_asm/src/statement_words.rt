// Statements by their words.
ghost use Rattle.std.specs.Prelude.{◌≡◌, Some, IfSome, option_map};
ghost use Rattle.gq_model.specs.texts.Spelling.{shape_of_word, spellings};
ghost use Rattle.gq_program.specs.Statement_table.{shape_of};

use gq_model::program::{Form, Operator, Width};
use gq_model::spelling::same_text;
use gq_program::{Bare, Shape, WithAmount, WithBytes, WithNumber, WithSlot, shape_of_word};

/// The statement with this word of two letters.
fn of_two(word: &[u8]) -> Option<Shape>
    ensures { IfSome result (λ s. shape_of_word word.now spellings ≡ Some (shape_of s)) }
{
    match word {
        [b'e', b'q'] => Some(Shape::Plain(Bare::Combine(Operator::Equal))),
        [b'l', b't'] => Some(Shape::Plain(Bare::Combine(Operator::Less))),
        [b'i', b'n'] => Some(Shape::Number(WithNumber::Input)),
        _ => None,
    }
}

/// The statement with this word of three letters.
fn of_three(word: &[u8]) -> Option<Shape>
    ensures { IfSome result (λ s. shape_of_word word.now spellings ≡ Some (shape_of s)) }
{
    match word {
        [b'd', b'u', b'p'] => Some(Shape::Plain(Bare::Dup)),
        [b'a', b'd', b'd'] => Some(Shape::Plain(Bare::Combine(Operator::Add))),
        [b'g', b'e', b't'] => Some(Shape::Number(WithNumber::Get)),
        [b's', b'e', b't'] => Some(Shape::Number(WithNumber::Set)),
        [b'm', b'u', b'l'] => Some(Shape::Plain(Bare::Combine(Operator::Multiply))),
        [b's', b'u', b'b'] => Some(Shape::Plain(Bare::Combine(Operator::Subtract))),
        [b'd', b'i', b'v'] => Some(Shape::Number(WithNumber::Divide)),
        [b'm', b'o', b'd'] => Some(Shape::Number(WithNumber::Modulo)),
        [b'a', b'n', b'd'] => Some(Shape::Plain(Bare::Combine(Operator::And))),
        [b'o', b'u', b't'] => Some(Shape::Out),
        [b's', b'a', b'y'] => Some(Shape::Say),
        _ => None,
    }
}

/// The statement with this word of four letters.
fn of_four(word: &[u8]) -> Option<Shape>
    ensures { IfSome result (λ s. shape_of_word word.now spellings ≡ Some (shape_of s)) }
{
    match word {
        [b'p', b'u', b's', b'h'] => Some(Shape::Number(WithNumber::Push)),
        [b'd', b'r', b'o', b'p'] => Some(Shape::Plain(Bare::Drop)),
        [b'l', b'o', b'a', b'd'] => Some(Shape::Bytes(WithBytes::Load(Width::Byte))),
        [b'f', b'r', b'e', b'e'] => Some(Shape::Slot(WithSlot::Free)),
        [b'c', b'a', b'l', b'l'] => Some(Shape::Slot(WithSlot::Call)),
        [b't', b'a', b'k', b'e'] => Some(Shape::Slot(WithSlot::Take)),
        [b'g', b'i', b'v', b'e'] => Some(Shape::Slot(WithSlot::Give)),
        [b'p', b'e', b'e', b'k'] => Some(Shape::Slot(WithSlot::Peek)),
        [b'p', b'o', b'k', b'e'] => Some(Shape::Slot(WithSlot::Poke)),
        [b'p', b'o', b'o', b'l'] => Some(Shape::Pool),
        [b'o', b'p', b'e', b'n'] => Some(Shape::Open),
        _ => None,
    }
}

/// The statement with this word of five letters.
fn of_five(word: &[u8]) -> Option<Shape>
    ensures { IfSome result (λ s. shape_of_word word.now spellings ≡ Some (shape_of s)) }
{
    match word {
        [b'i', b'n', b'd', b'e', b'x'] => Some(Shape::Number(WithNumber::Index)),
        [b's', b't', b'o', b'r', b'e'] => Some(Shape::Bytes(WithBytes::Store(Width::Byte))),
        [b'l', b'o', b'a', b'd', b'4'] => Some(Shape::Bytes(WithBytes::Load(Width::Word))),
        [b's', b'p', b'a', b'c', b'e'] => Some(Shape::Amount(WithAmount::Make(Form::Space))),
        [b's', b'l', b'i', b'c', b'e'] => Some(Shape::Amount(WithAmount::Make(Form::Slice))),
        [b'b', b'l', b'o', b'c', b'k'] => Some(Shape::Amount(WithAmount::Make(Form::Block))),
        [b'c', b'l', b'o', b's', b'e'] => Some(Shape::Slot(WithSlot::Close)),
        _ => None,
    }
}

/// The statement with this word of six letters.
fn of_six(word: &[u8]) -> Option<Shape>
    ensures { IfSome result (λ s. shape_of_word word.now spellings ≡ Some (shape_of s)) }
{
    if same_text(word, b"store4") {
        return Some(Shape::Bytes(WithBytes::Store(Width::Word)));
    }
    None
}

/// The statement with this word, of two to six letters.
fn of_few(word: &[u8]) -> Option<Shape>
    ensures { IfSome result (λ s. shape_of_word word.now spellings ≡ Some (shape_of s)) }
{
    match word.len() {
        2 => of_two(word),
        3 => of_three(word),
        4 => of_four(word),
        5 => of_five(word),
        6 => of_six(word),
        _ => None,
    }
}

/// The statement with this word, if there is one. Those of its length are looked at first, and all others after them.
pub fn shape_with(word: &[u8]) -> Option<Shape>
    ensures { option_map shape_of result ≡ shape_of_word word.now spellings }
{
    match of_few(word) {
        Some(shape) => Some(shape),
        None => shape_of_word(word),
    }
}
