// The sections of programs: a table of their kinds, which sections there are, their order and their words.
ghost use Rattle.std.specs.Prelude.{◌≡◌, ◌<◌, Some, IsTrue, get_or};
ghost use Rattle.gq_model.specs.machine.Sections.{Main, row, all_kinds, kind_of, level_of, of_kind, same_section, is_section, section_number};
ghost use Rattle.gq_model.specs.machine.Sections.{all_sections, is_own_section, is_start_section, section_word};
ghost use Rattle.gq_model.specs.texts.Text.{kind_with};

use crate::spelling::same_text;
use std::fmt::{self, Display, Formatter, Write};

/// What begins the heading of a section.
#[derive(Clone, Copy, Debug, PartialEq, Eq)]
pub enum SectionKind {
    /// What is done at the start.
    Main,
    /// What is done at the opening of a session.
    Opening,
    /// What is done for an upgrade to a level.
    Upgrading,
    /// What is done for a call at a level.
    Calling,
    /// What is done for the close at a level.
    Closing,
    /// What is done for a signal.
    Reacting,
}

impl SectionKind {
    /// All of them, in the order of their sections.
    pub const ALL: [SectionKind; 6] = [
        SectionKind::Main,
        SectionKind::Opening,
        SectionKind::Upgrading,
        SectionKind::Calling,
        SectionKind::Closing,
        SectionKind::Reacting,
    ];

    /// The word of its heading.
    pub fn word(self) -> &'static str
        ensures { result.now ≡ (row self).word }
    {
        match self {
            SectionKind::Main => "main",
            SectionKind::Opening => "open",
            SectionKind::Upgrading => "up",
            SectionKind::Calling => "call",
            SectionKind::Closing => "close",
            SectionKind::Reacting => "on",
        }
    }

    /// The least and the greatest number that may stand behind its word, where one does.
    pub fn levels(self) -> Option<(u8, u8)>
        ensures { result ≡ (row self).levels }
    {
        match self {
            SectionKind::Main | SectionKind::Opening => None,
            SectionKind::Upgrading => Some((1, 3)),
            SectionKind::Calling | SectionKind::Closing => Some((0, 3)),
            SectionKind::Reacting => Some((0, 2)),
        }
    }

    /// The place of its section of number 0, from which its others are counted.
    fn first(self) -> usize
        ensures { result ≡ (row self).first }
    {
        match self {
            SectionKind::Main => 0,
            SectionKind::Opening | SectionKind::Upgrading => 1,
            SectionKind::Calling => 5,
            SectionKind::Closing => 9,
            SectionKind::Reacting => 13,
        }
    }

    /// The kind whose heading has this word.
    pub fn of_word(word: &[u8]) -> Option<SectionKind>
        ensures { result ≡ kind_with word.now all_kinds }
    {
        for kind in SectionKind::ALL {
            if same_text(word, kind.word().as_bytes()) {
                return Some(kind);
            }
        }
        None
    }

    /// Its section of this number, which counts only where its heading has one.
    pub fn section(self, level: u8) -> Section
        ensures { result ≡ of_kind self level }
    {
        match self {
            SectionKind::Main => Section::Main,
            SectionKind::Opening => Section::Opening,
            SectionKind::Upgrading => Section::Upgrading(level),
            SectionKind::Calling => Section::Calling(level),
            SectionKind::Closing => Section::Closing(level),
            SectionKind::Reacting => Section::Reacting(level),
        }
    }
}

/// A section of a program: what is done at the start, at a session's opening, for an upgrade to, a call at and the
/// close at a level, and for a signal of a number.
#[derive(Clone, Copy, Debug, PartialEq, Eq)]
pub enum Section {
    Main,
    Opening,
    Upgrading(u8),
    Calling(u8),
    Closing(u8),
    Reacting(u8),
}

impl Section {
    /// The sections in the order in which a program's code has them, and in which they are judged.
    pub const ALL: [Section; 16] = [
        Section::Main,
        Section::Opening,
        Section::Upgrading(1),
        Section::Upgrading(2),
        Section::Upgrading(3),
        Section::Calling(0),
        Section::Calling(1),
        Section::Calling(2),
        Section::Calling(3),
        Section::Closing(0),
        Section::Closing(1),
        Section::Closing(2),
        Section::Closing(3),
        Section::Reacting(0),
        Section::Reacting(1),
        Section::Reacting(2),
    ];

    /// Its kind.
    #[inline(always)]
    pub fn kind(self) -> SectionKind
        ensures { result ≡ kind_of self }
    {
        match self {
            Section::Main => SectionKind::Main,
            Section::Opening => SectionKind::Opening,
            Section::Upgrading(_) => SectionKind::Upgrading,
            Section::Calling(_) => SectionKind::Calling,
            Section::Closing(_) => SectionKind::Closing,
            Section::Reacting(_) => SectionKind::Reacting,
        }
    }

    /// The number of its heading: the level of its session, or a signal's number; 0 where it has none.
    #[inline(always)]
    pub fn level(self) -> u8
        ensures { result ≡ level_of self }
    {
        match self {
            Section::Main | Section::Opening => 0,
            Section::Upgrading(level)
            | Section::Calling(level)
            | Section::Closing(level)
            | Section::Reacting(level) => level,
        }
    }

    /// Whether there is a section of this kind and level.
    #[inline(always)]
    pub fn is_there(self) -> bool
        ensures { result ≡ is_section self }
    {
        match self.kind().levels() {
            None => true,
            Some((least, greatest)) => least <= self.level() && self.level() <= greatest,
        }
    }

    /// Its place in `ALL`, if it is there.
    #[inline(always)]
    pub fn number(self) -> usize
        ensures number { result ≡ section_number self }
        ensures below { IsTrue (is_section self) → result < 16 }
        ensures place { IsTrue (is_section self) → get_or all_sections result Main ≡ self }
    {
        self.kind().first() + usize::from(self.level())
    }

    /// Whether it is one of the leaf's own: no request begins it, and no session is current in it.
    #[inline(always)]
    pub fn is_own(self) -> bool
        ensures { result ≡ is_own_section self }
    {
        matches!(self, Section::Main | Section::Reacting(_))
    }

    /// Whether it changes the leaf's own slots: only what is done at the start does.
    #[inline(always)]
    pub fn is_start(self) -> bool
        ensures { result ≡ is_start_section self }
    {
        self == Section::Main
    }
}

/// Whether two sections are one.
#[inline(always)]
pub fn same_section(a: Section, b: Section) -> bool
    ensures { result ≡ same_section a b }
{
    a == b
}

impl Display for Section {
    ghost output = { λ section. Some (section_word section) };

    fn fmt<W: Write>(&self, f: &mut Formatter<W>) -> fmt::Result {
        f.write_str(self.kind().word())?;
        match self.kind().levels() {
            None => Ok(()),
            Some(_) => write!(f, " {}", self.level()),
        }
    }
}
