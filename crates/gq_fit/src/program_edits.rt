// What changes in the programs of a text so that their statements give just what sessions need.
// No contract but that nothing is out of range: what is made of it is read again (`made`). Tests show it.
use crate::edits::Edit;
use crate::fit_fault::{MakeError, Misfit};
use crate::string_letters::{Letter, Letters};
use gq_model::section::{Section, SectionKind};
use gq_sizes::donations::SectionDonations;
use gq_views::view_words::push_number;
use std::alloc::{AllocError, Global};

/// The greatest number that a statement gives.
const GREATEST_GIVEN: u64 = (1 << 32) - 1;

/// How many words a statement has at most that gives for a session.
const WORDS: usize = 5;

/// A word of a line: where it begins among the letters of the line, and where it ends.
#[derive(Clone, Copy)]
struct Word {
    first: usize,
    end: usize,
}

/// What the words of a line are, for what is given.
#[derive(Clone, Copy)]
enum LineWords {
    /// The heading of a section.
    Heading(Section),
    /// A statement that gives the number which is this word.
    Giving(Word),
    Other,
}

/// The letters of a line of a program's text.
#[derive(Drop)]
struct Row {
    letters: Vec<Letter>,
}

impl Row {
    fn byte(&self, place: usize) -> u8 {
        match self.letters.get(place) {
            Some(letter) => letter.byte,
            None => 0,
        }
    }

    /// The first place from one on that has no blank.
    fn after_blanks(&self, start: usize) -> usize {
        for place in start..self.letters.len() {
            if !is_blank(self.byte(place)) {
                return place;
            }
        }
        self.letters.len()
    }

    /// The first place from one on that has a blank.
    fn after_word(&self, start: usize) -> usize {
        for place in start..self.letters.len() {
            if is_blank(self.byte(place)) {
                return place;
            }
        }
        self.letters.len()
    }

    /// The word that begins at a letter or behind blanks there. `None` where there is none.
    fn word(&self, start: usize) -> Option<Word> {
        let first = self.after_blanks(start);
        let end = self.after_word(first);
        if first == end {
            None
        } else {
            Some(Word { first, end })
        }
    }

    /// The first words, and how many there are.
    fn words(&self) -> ([Word; WORDS], usize) {
        let mut words = [Word { first: 0, end: 0 }; WORDS];
        let mut start = 0;
        for place in 0..WORDS {
            match self.word(start) {
                Some(word) => {
                    words[place] = word;
                    start = word.end;
                }
                None => return (words, place),
            }
        }
        (words, WORDS)
    }

    fn is(&self, word: Word, text: &[u8]) -> bool {
        word.end.saturating_sub(word.first) == text.len()
            && text.iter().enumerate().all(|(place, byte)| self.byte(
                word.first.saturating_add(place),
            ) == *byte)
    }

    /// The level that a word is, if it is one digit up to 3.
    fn level(&self, word: Word) -> Option<u8> {
        match self.byte(word.first) {
            byte @ b'0'..=b'3' if word.end == word.first.saturating_add(1) => Some(byte - b'0'),
            _ => None,
        }
    }

    fn line(&self) -> LineWords {
        let (words, count) = self.words();
        let [first, second, third, fourth, _] = words;
        match count {
            1 | 2 => self.heading(first, second, count == 2),
            3 if self.is(first, b"upgrade") => LineWords::Giving(third),
            4 if self.is(first, b"open") => LineWords::Giving(fourth),
            _ => LineWords::Other,
        }
    }

    /// A heading, if it is one that begins with the first word and has the second behind it, or none.
    fn heading(&self, first: Word, second: Word, has_second: bool) -> LineWords {
        for kind in SectionKind::ALL {
            if self.is(first, kind.word().as_bytes()) {
                return match kind.levels() {
                    None if !has_second => LineWords::Heading(kind.section(0)),
                    Some(_) if has_second => self.headed(kind, second),
                    _ => LineWords::Other,
                };
            }
        }
        LineWords::Other
    }

    /// The heading of a section of this kind, if a word is a level.
    fn headed(&self, kind: SectionKind, word: Word) -> LineWords {
        match self.level(word) {
            Some(level) => LineWords::Heading(kind.section(level)),
            None => LineWords::Other,
        }
    }

    /// The number that a word is.
    fn number(&self, word: Word) -> u64 {
        let mut number = 0_u64;
        for place in word.first..word.end {
            let digit = self.byte(place).saturating_sub(b'0');
            number = number.saturating_mul(10).saturating_add(u64::from(digit));
        }
        number
    }

    /// From which offset of the text up to which other a word stands.
    fn extent(&self, word: Word) -> (usize, usize) {
        let at = match self.letters.get(word.first) {
            Some(letter) => letter.at,
            None => 0,
        };
        let end = match self.letters.get(word.end.saturating_sub(1)) {
            Some(letter) => letter.end,
            None => 0,
        };
        (at, end)
    }
}

fn is_blank(byte: u8) -> bool {
    byte == b' ' || byte == b'\t' || byte == b'\r'
}

/// What is still to be given by the statements of a program, section by section.
#[derive(Drop)]
struct Giver<'d> {
    alloc: Global,
    sections: &'d [SectionDonations],
    /// What the statements of the section at hand give, from the next one on.
    left: &'d [u64],
}

impl<'d> Giver<'d> {
    /// A section begins.
    fn begin(&mut self, section: Section) {
        self.left = &[];
        for found in self.sections {
            if found.section == section {
                self.left = found.amounts.as_slice();
            }
        }
    }

    /// What changes in a line.
    fn line(&mut self, row: &Row) -> Result<Option<Edit>, MakeError> {
        match row.line() {
            LineWords::Heading(section) => {
                self.begin(section);
                Ok(None)
            }
            LineWords::Giving(word) => self.give(row, word),
            LineWords::Other => Ok(None),
        }
    }

    /// What changes in a line with a statement that gives this number.
    fn give(&mut self, row: &Row, word: Word) -> Result<Option<Edit>, MakeError> {
        let [first, left @ ..] = self.left else {
            return Err(MakeError::Misfit(Misfit::Differs));
        };
        self.left = left;
        let number = (*first).min(GREATEST_GIVEN);
        if row.number(word) == number {
            return Ok(None);
        }
        let (at, end) = row.extent(word);
        let mut new = Vec::new(self.alloc);
        push_number(&mut new, number)?;
        Ok(Some(Edit { at, end, new }))
    }
}

/// Puts what changes in the program whose string begins at an offset of a text at the end of edits, so that its statements give this.
pub(crate) fn push_program(
    alloc: Global,
    edits: &mut Vec<Edit>,
    text: &[u8],
    at: usize,
    sections: &[SectionDonations],
) -> Result<(), MakeError> {
    let mut letters = Letters::new(text, at);
    let mut giver = Giver {
        alloc,
        sections,
        left: &[],
    };
    let mut row = Row {
        letters: Vec::new(alloc),
    };
    for _letter in at..text.len() {
        let next = letters.next();
        match next {
            Some(letter) if letter.byte != b'\n' => row.letters.push(letter)?,
            _ => {
                if let Some(edit) = giver.line(&row)? {
                    edits.push(edit)?;
                }
                row.letters.clear();
            }
        }
        if next.is_none() {
            return Ok(());
        }
    }
    Ok(())
}
