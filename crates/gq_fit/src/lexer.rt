// What a lexer of TOML knows behind a prefix of a text: where in it quantities stand. The grammar is that of TOML 1.0 (https://toml.io/en/v1.0.0).
ghost use Rattle.std.specs.Prelude.{◌≡◌, ◌==◌, if◌then◌else◌, [], IfOk, OnOk};
ghost use Rattle.gq_model.specs.machine.Lists.{any_of};
ghost use Rattle.gq_model.specs.machine.Program.{text_eq};
ghost use Rattle.gq_scenario.specs.Fault_words.{key_text};
ghost use Rattle.gq_model.specs.texts.Letters.{is_blank, is_name_byte, pieces};
ghost use Rattle.gq_fit.specs.Places.{after_bytes, after_long, after_mode, after_plain, after_short, at_start, closes, ends_in_space, gives_next};
ghost use Rattle.gq_fit.specs.Places.{is_outside};
ghost use Rattle.gq_fit.specs.Places.{is_given_place, is_one, is_two, is_place, is_quantity_key, is_quantity_place, is_quote, is_space};
ghost use Rattle.gq_fit.specs.Places.{lexer_in, with_escape, with_letter};
ghost use Rattle.gq_fit.specs.declared.lexer.Mode.TheVariants.{Value, Comment, Twice, LongEscape, Joined};

use gq_model::letters::is_name_byte;
use gq_model::spelling::same_text;
use gq_scenario::key::Key;
use gq_scenario::text_pieces::next_piece;
use std::alloc::{AllocError, Global};

/// Where a lexer is in a text.
#[derive(Clone, Copy)]
pub enum Mode {
    /// Outside of strings and comments.
    Plain,
    /// Behind `=` and blanks.
    Value,
    /// In a comment.
    Comment,
    /// Behind one quote.
    Opened(u8),
    /// Behind two quotes: an empty string, or the start of one of several lines.
    Twice(u8),
    /// In a string of one line between these quotes.
    Short(u8),
    /// Behind a backslash in one.
    ShortEscape,
    /// In a string of several lines between three of these quotes.
    Long(u8),
    /// Behind one of these quotes in one.
    LongQuote(u8),
    /// Behind two of them.
    LongQuotes(u8),
    /// Behind a backslash in one.
    LongEscape,
    /// Between two lines that a backslash joins.
    Joined,
    /// Behind the quotes that end a string of several lines.
    Closed(u8),
}

/// The keys of quantities.
const QUANTITY_KEYS: [Key; 7] = [
    Key::Ram,
    Key::Caps,
    Key::Need,
    Key::NeedCaps,
    Key::Upgrades,
    Key::UpgradeCaps,
    Key::Quantum,
];

fn is_blank(byte: u8) -> bool
    ensures { result ≡ is_blank byte }
{
    byte == b' ' || byte == b'\t'
}

fn is_quote(byte: u8) -> bool
    ensures { result ≡ is_quote byte }
{
    byte == b'"' || byte == b'\''
}

fn is_space(byte: u8) -> bool
    ensures { result ≡ is_space byte }
{
    is_blank(byte) || byte == b'\n' || byte == b'\r'
}

fn ends_in_space(line: &[u8]) -> bool
    ensures { result ≡ ends_in_space line.now }
{
    line.is_empty() || line[line.len() - 1] == b' '
}

/// What a lexer knows behind a prefix of a text.
#[derive(Drop)]
pub struct Lexer {
    mode: Mode,
    line: Vec<u8>,
}

/// Puts a letter at the end of a line.
fn push_letter(line: &mut Vec<u8>, byte: u8) -> Result<(), AllocError>
    ensures { OnOk result (line.new.items ≡ with_letter line.old.items byte) }
{
    if !is_space(byte) {
        line.push(byte)?;
    } else if !ends_in_space(line.as_slice()) {
        line.push(b' ')?;
    }
    Ok(())
}

/// Puts a letter that is written as an escape at the end of a line.
fn push_escape(line: &mut Vec<u8>, byte: u8) -> Result<(), AllocError>
    ensures { OnOk result (line.new.items ≡ with_escape line.old.items byte) }
{
    match byte {
        b'n' => {
            line.clear();
            Ok(())
        }
        b't' | b'r' => push_letter(line, b' '),
        _ => {
            line.push(b'\\')?;
            line.push(byte)?;
            Ok(())
        }
    }
}

/// Where it is behind a byte outside of strings and comments.
fn plain_then(line: &mut Vec<u8>, byte: u8) -> Result<Mode, AllocError>
    ensures { IfOk result (λ mode. lexer_in mode line.new.items ≡ after_plain line.old.items byte) }
{
    if byte == b'=' {
        return Ok(Mode::Value);
    }
    if is_blank(byte) {
        return Ok(Mode::Plain);
    }
    if is_name_byte(byte) {
        line.push(byte)?;
        return Ok(Mode::Plain);
    }
    line.clear();
    if byte == b'#' {
        return Ok(Mode::Comment);
    }
    if is_quote(byte) {
        return Ok(Mode::Opened(byte));
    }
    Ok(Mode::Plain)
}

/// Where it is behind a byte in a string of one line.
fn short_then(quote: u8, line: &mut Vec<u8>, byte: u8) -> Result<Mode, AllocError>
    ensures { IfOk result (λ mode. lexer_in mode line.new.items ≡ after_short quote line.old.items byte) }
{
    if byte == quote {
        return Ok(Mode::Plain);
    }
    if byte == b'\\' && quote == b'"' {
        return Ok(Mode::ShortEscape);
    }
    push_letter(line, byte)?;
    Ok(Mode::Short(quote))
}

/// Where it is behind a byte in a string of several lines; behind one of its own quotes it is where `quoted` says.
fn long_then(quoted: Mode, quote: u8, line: &mut Vec<u8>, byte: u8) -> Result<Mode, AllocError>
    ensures { IfOk result (λ mode. lexer_in mode line.new.items ≡ after_long quoted quote line.old.items byte) }
{
    if byte == quote {
        line.push(byte)?;
        return Ok(quoted);
    }
    if byte == b'\\' && quote == b'"' {
        return Ok(Mode::LongEscape);
    }
    if byte == b'\n' {
        line.clear();
        return Ok(Mode::Long(quote));
    }
    push_letter(line, byte)?;
    Ok(Mode::Long(quote))
}

/// Where it is behind a byte that follows one or two quotes, or the quotes that end a string: a further quote leads to `quoted`.
fn behind_quotes(quoted: Mode, quote: u8, line: &mut Vec<u8>, byte: u8) -> Result<Mode, AllocError>
    ensures { IfOk result (λ mode. lexer_in mode line.new.items ≡ (if byte == quote then lexer_in quoted [] else after_plain [] byte)) }
{
    line.clear();
    if byte == quote {
        return Ok(quoted);
    }
    plain_then(line, byte)
}

/// Where it is behind a byte that follows one quote.
fn opened_then(quote: u8, line: &mut Vec<u8>, byte: u8) -> Result<Mode, AllocError>
    ensures { IfOk result (λ mode. lexer_in mode line.new.items ≡ (if byte == quote then lexer_in (Twice quote) [] else after_short quote [] byte)) }
{
    line.clear();
    if byte == quote {
        return Ok(Mode::Twice(quote));
    }
    short_then(quote, line, byte)
}

/// Where it is behind a byte that follows a backslash in a string of several lines.
fn long_escape_then(line: &mut Vec<u8>, byte: u8) -> Result<Mode, AllocError>
    ensures { IfOk result (λ mode. lexer_in mode line.new.items ≡ after_mode LongEscape line.old.items byte) }
{
    if is_space(byte) {
        return Ok(Mode::Joined);
    }
    push_escape(line, byte)?;
    Ok(Mode::Long(b'"'))
}

/// Where it is behind a byte that follows `=` and blanks.
fn value_then(line: &mut Vec<u8>, byte: u8) -> Result<Mode, AllocError>
    ensures { IfOk result (λ mode. lexer_in mode line.new.items ≡ after_mode Value line.old.items byte) }
{
    if is_blank(byte) {
        return Ok(Mode::Value);
    }
    line.clear();
    plain_then(line, byte)
}

/// Where it is behind a byte in a comment.
fn comment_then(line: &mut Vec<u8>, byte: u8) -> Mode
    ensures { lexer_in result line.new.items ≡ after_mode Comment line.old.items byte }
{
    line.clear();
    if byte == b'\n' {
        Mode::Plain
    } else {
        Mode::Comment
    }
}

/// Where it is behind a byte that follows joined lines.
fn joined_then(line: &mut Vec<u8>, byte: u8) -> Result<Mode, AllocError>
    ensures { IfOk result (λ mode. lexer_in mode line.new.items ≡ after_mode Joined line.old.items byte) }
{
    if is_space(byte) {
        return Ok(Mode::Joined);
    }
    long_then(Mode::LongQuote(b'"'), b'"', line, byte)
}

impl Mode {
    /// Whether a bracket here is one of the text, in no string and no comment.
    fn is_outside(self) -> bool
        ensures { result ≡ is_outside self }
    {
        matches!(
            self,
            Mode::Plain | Mode::Value | Mode::Twice(_) | Mode::Closed(_)
        )
    }

    /// Where it is behind one byte more.
    fn then(self, line: &mut Vec<u8>, byte: u8) -> Result<Mode, AllocError>
        ensures { IfOk result (λ mode. lexer_in mode line.new.items ≡ after_mode self line.old.items byte) }
    {
        match self {
            Mode::Plain => plain_then(line, byte),
            Mode::Value => value_then(line, byte),
            Mode::Comment => Ok(comment_then(line, byte)),
            Mode::Opened(quote) => opened_then(quote, line, byte),
            Mode::Twice(quote) => behind_quotes(Mode::Long(quote), quote, line, byte),
            Mode::Short(quote) => short_then(quote, line, byte),
            Mode::ShortEscape => {
                push_escape(line, byte)?;
                Ok(Mode::Short(b'"'))
            }
            Mode::Long(quote) => long_then(Mode::LongQuote(quote), quote, line, byte),
            Mode::LongQuote(quote) => long_then(Mode::LongQuotes(quote), quote, line, byte),
            Mode::LongQuotes(quote) => long_then(Mode::Closed(quote), quote, line, byte),
            Mode::LongEscape => long_escape_then(line, byte),
            Mode::Joined => joined_then(line, byte),
            Mode::Closed(quote) => behind_quotes(Mode::Closed(quote), quote, line, byte),
        }
    }
}

/// Whether a word is one of these keys.
fn is_any(keys: &[Key], word: &[u8]) -> bool
    ensures { result ≡ any_of (λ k. text_eq (key_text k) word.now) keys.now }
{
    match keys {
        [] => false,
        [key, others @ ..] => same_text(key.word().as_bytes(), word) || is_any(others, word),
    }
}

/// Whether a word is the key of a quantity.
fn is_quantity_key(word: &[u8]) -> bool
    ensures { result ≡ is_quantity_key word.now }
{
    is_any(&QUANTITY_KEYS, word)
}

/// Whether a line is a word and a space.
fn is_one(line: &[u8]) -> bool
    ensures { result ≡ is_one (pieces (λ c. c == 32) line.now) }
{
    let (_word, rest) = next_piece(line, b' ');
    match rest {
        Some(rest) => rest.is_empty(),
        None => false,
    }
}

/// Whether a line is two words, each with a space after it.
fn is_two(line: &[u8]) -> bool
    ensures { result ≡ is_two (pieces (λ c. c == 32) line.now) }
{
    let (_word, rest) = next_piece(line, b' ');
    match rest {
        Some(rest) => is_one(rest),
        None => false,
    }
}

/// Whether a line is `open`, a slot and a service, or `upgrade` and a slot, with a space after each.
fn gives_next(line: &[u8]) -> bool
    ensures { result ≡ gives_next (pieces (λ c. c == 32) line.now) }
{
    let (word, rest) = next_piece(line, b' ');
    match rest {
        Some(rest) => {
            if same_text(word, b"open") {
                return is_two(rest);
            }
            same_text(word, b"upgrade") && is_one(rest)
        }
        None => false,
    }
}

impl Lexer {
    /// At the start of a text.
    pub fn new(alloc: Global) -> Lexer
        ensures { lexer_in result.mode result.line.items ≡ at_start }
    {
        Lexer {
            mode: Mode::Plain,
            line: Vec::new(alloc),
        }
    }

    /// Passes some bytes of the text.
    pub fn pass(&mut self, bytes: &[u8]) -> Result<(), AllocError>
        ensures { OnOk result (lexer_in self.new.mode self.new.line.items ≡ after_bytes (lexer_in self.old.mode self.old.line.items) bytes.now) }
    {
        for byte in bytes {
            self.mode = self.mode.then(&mut self.line, *byte)?;
        }
        Ok(())
    }

    /// Whether the first closing bracket of these bytes, in no string and no comment, is their last byte.
    pub fn closes(mut self, bytes: &[u8]) -> Result<bool, AllocError>
        ensures { IfOk result (λ is. is ≡ closes (lexer_in self.mode self.line.items) bytes.now) }
    {
        for (place, byte) in bytes.iter().enumerate() {
            if *byte == b']' && self.mode.is_outside() {
                return Ok(place + 1 == bytes.len());
            }
            self.mode = self.mode.then(&mut self.line, *byte)?;
        }
        Ok(false)
    }

    /// Whether the value of a quantity stands here.
    fn is_at_quantity(&self) -> bool
        ensures { result ≡ is_quantity_place (lexer_in self.now.mode self.now.line.items) }
    {
        matches!(self.mode, Mode::Value) && is_quantity_key(self.line.as_slice())
    }

    /// Whether what a statement gives stands here.
    fn is_at_gift(&self) -> bool
        ensures { result ≡ is_given_place (lexer_in self.now.mode self.now.line.items) }
    {
        matches!(self.mode, Mode::Short(_) | Mode::Long(_) | Mode::Joined)
            && gives_next(self.line.as_slice())
    }

    /// Whether a value may change here: that of a quantity, or what a statement gives if that is to be fitted.
    pub fn is_at_place(&self, with_gifts: bool) -> bool
        ensures { result ≡ is_place with_gifts (lexer_in self.now.mode self.now.line.items) }
    {
        self.is_at_quantity() || with_gifts && self.is_at_gift()
    }
}
