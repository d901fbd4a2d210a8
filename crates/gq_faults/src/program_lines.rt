// The lines of a program's text, with their words, and on which of them its statements stand.
// No contract: its results are places alone. Tests show them.
use gq_model::section::{Section, SectionKind};
use gq_scenario::text_pieces::next_line;

// A walk over the lines of a program's text.
#[derive(Drop)]
struct Reading {
    /// The section at hand.
    section: Option<Section>,
    /// How many blocks are open in it.
    depth: usize,
    /// The number of its last statement.
    number: u64,
}

/// What a line of a program's text is.
#[derive(Clone, Copy)]
enum ProgramLine {
    /// A heading, or a limit of a local, which says nothing of statements.
    Heading(Option<Section>),
    /// A statement of this number of this section.
    Statement(Section, u64),
    /// The end of a section whose last statement has this number.
    End(Section, u64),
    /// Nothing of these.
    Other,
}

// Whether a byte stands between words.
fn is_blank(byte: u8) -> bool {
    byte == b' ' || byte == b'\t'
}

// The first word of a line, and what follows it.
fn first_word(line: &[u8]) -> (&[u8], &[u8]) {
    let start = line.iter().take_while(|byte| is_blank(**byte)).count();
    let rest = &line[start..];
    let end = rest.iter().take_while(|byte| !is_blank(**byte)).count();
    (&rest[..end], &rest[end..])
}

/// A word of a line, and the byte with which it begins.
#[derive(Clone, Copy)]
pub(crate) struct LineWord<'l> {
    pub at: usize,
    pub text: &'l [u8],
}

/// The word of this number, from 0, of a line.
pub(crate) fn nth_word(line: &[u8], number: usize) -> Option<LineWord<'_>> {
    let mut left = line;
    for _ in 0..number {
        let (_, rest) = first_word(left);
        left = rest;
    }
    let (text, rest) = first_word(left);
    if text.is_empty() {
        return None;
    }
    let at = line
        .len()
        .saturating_sub(rest.len().saturating_add(text.len()));
    Some(LineWord { at, text })
}

// The level that the word behind a heading's word spells, up to 9.
fn level_of(rest: &[u8]) -> u8 {
    let (word, _) = first_word(rest);
    match word.last() {
        Some(digit @ b'0'..=b'9') => *digit - b'0',
        _ => 0,
    }
}

// The section of a heading.
fn section_of(word: &[u8], rest: &[u8]) -> Option<Section> {
    match SectionKind::of_word(word) {
        Some(kind) => Some(kind.section(level_of(rest))),
        None => None,
    }
}

impl Reading {
    fn new() -> Reading {
        Reading {
            section: None,
            depth: 0,
            number: 0,
        }
    }

    // Reads one line more, and says what it is.
    fn read(&mut self, line: &[u8]) -> ProgramLine {
        let (word, rest) = first_word(line);
        if word.is_empty() || word.starts_with(b"#") {
            return ProgramLine::Other;
        }
        match self.section {
            None => self.heading(word, rest),
            Some(section) => self.inside(section, word),
        }
    }

    fn heading(&mut self, word: &[u8], rest: &[u8]) -> ProgramLine {
        self.section = section_of(word, rest);
        self.depth = 0;
        self.number = 0;
        ProgramLine::Heading(self.section)
    }

    fn inside(&mut self, section: Section, word: &[u8]) -> ProgramLine {
        match word {
            b"else" => ProgramLine::Other,
            b"end" if self.depth > 0 => {
                self.depth -= 1;
                ProgramLine::Other
            }
            b"end" => {
                self.section = None;
                ProgramLine::End(section, self.number)
            }
            _ => {
                if matches!(word, b"if" | b"loop") {
                    self.depth = self.depth.saturating_add(1);
                }
                self.number = self.number.saturating_add(1);
                ProgramLine::Statement(section, self.number)
            }
        }
    }
}

// Whether a line is the one of a place of a section: 0 is its heading, and the number past the last its end.
fn is_there(line: ProgramLine, section: Section, place: u64) -> bool {
    match line {
        ProgramLine::Heading(heading) => place == 0 && heading == Some(section),
        ProgramLine::Statement(at, number) => at == section && number == place,
        ProgramLine::End(at, last) => at == section && place > last,
        ProgramLine::Other => false,
    }
}

/// The line of a program's text, numbered from 1, that has the statement of a number of a section: 0 is the section's heading, and the number past the last its
/// `end`. None where the text has no such section.
pub(crate) fn line_of(text: &[u8], section: Section, place: u64) -> Option<usize> {
    let mut reading = Reading::new();
    let mut left = Some(text);
    for number in 1..usize::MAX {
        let Some(begun) = left else {
            return None;
        };
        let (line, rest) = next_line(begun);
        if is_there(reading.read(line), section, place) {
            return Some(number);
        }
        left = rest;
    }
    None
}

/// A line of a program's text, numbered from 1, and whether a section is open before it.
pub(crate) fn line_at(text: &[u8], number: usize) -> Option<(&[u8], bool)> {
    let mut reading = Reading::new();
    let mut left = Some(text);
    for at in 1..usize::MAX {
        let Some(begun) = left else {
            return None;
        };
        let (line, rest) = next_line(begun);
        if at == number {
            return Some((line, reading.section.is_some()));
        }
        let _line = reading.read(line);
        left = rest;
    }
    None
}
