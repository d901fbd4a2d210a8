// The lines of faults: each with its place, and its details below it.
ghost use Rattle.std.specs.Prelude.{◌≡◌, ◌∷◌, [], IfOk};
ghost use Rattle.gq_faults.specs.Reported_faults.{IsReported, Reports};
ghost use Rattle.gq_faults.specs.Found_lines.{lines_found};

use crate::details::push_detail;
use crate::fault_value::{Compared, Detail, FaultPart, FoundFault, Pusher};
use crate::report_error::ReportError;
use crate::value_words::Details;
use gq_output::counted::{Counted, put};
use gq_toml_places::{Position, SourceMap, Step};
use std::alloc::{AllocError, Global};
use std::io::Write;

// The text of a fault at a place of the file of this path, with its details.
fn reported_text(
    alloc: Global,
    path: &str,
    position: Position,
    fault: &str,
    details: &Details,
) -> Result<Vec<u8>, AllocError>
    ensures { IfOk result (λ text. IsReported path.now fault.now text.items) }
{
    let (line, column) = (position.line, position.column);
    let prefix = format!(in alloc; "{path}:{line}:{column}: {fault}\n")?;
    let mut text = Vec::from_slice(alloc, prefix.as_bytes())?;
    text.extend_from_slice(details.lines())?;
    Ok(text)
}

/// Writes a fault at a place of the file of this path, with its details.
pub(crate) fn put_fault<W: Write>(
    alloc: Global,
    path: &str,
    position: Position,
    fault: &str,
    details: &Details,
    out: &mut Counted<W>,
) -> Result<(), ReportError>
    ensures { Reports W.contents path.now (fault.now ∷ []) out.old out.new result }
{
    let text = reported_text(alloc, path, position, fault, details)?;
    match put(out, text.as_slice()) {
        Ok(()) => Ok(()),
        Err(_) => Err(ReportError::Write),
    }
}

/// Puts the text of a line of a file, without the blanks around it, at the end of details.
pub(crate) fn push_line(reported: &mut Details, line: &str) -> Result<(), AllocError> {
    let line = line.trim_matches(is_blank);
    if line.is_empty() {
        return Ok(());
    }
    reported.quoted(line)?;
    reported.end()
}

// Whether a letter stands between words.
fn is_blank(letter: char) -> bool {
    letter == ' ' || letter == '\t' || letter == '\r'
}

// How many bytes of a line stand before the word at an offset, from the first word on, where these begin what is written in a file.
fn bytes_before(line: &str, written: &str, at: usize) -> usize {
    let first = line
        .len()
        .saturating_sub(line.trim_start_matches(is_blank).len());
    match line.get(first..at) {
        Some(before) if written.starts_with(before) => before.len(),
        _ => 0,
    }
}

/// Reports faults of the file of a scenario.
#[derive(Drop)]
pub(crate) struct Reporter<'f> {
    alloc: Global,
    path: &'f str,
    places: SourceMap<'f>,
}

impl<'f> Reporter<'f> {
    /// Of a file of this path and this text.
    pub fn new(alloc: Global, path: &'f str, text: &'f str) -> Result<Reporter<'f>, AllocError>
        ensures { IfOk result (λ reporter. reporter.path.now ≡ path.now) }
    {
        let places = SourceMap::read(alloc, text)?;
        Ok(Reporter {
            alloc,
            path,
            places,
        })
    }

    pub fn alloc(&self) -> Global {
        self.alloc
    }

    // Where a slot of what a way leads to is, and what is reported of the line there.
    fn place(
        &self,
        way: &[Step<'_>],
        part: FaultPart,
        details: &mut Details,
    ) -> Result<Position, AllocError> {
        let at = match part {
            FaultPart::Table => self.places.table(way),
            FaultPart::Key => self.places.key(way),
            FaultPart::Value => self.places.value(way),
            FaultPart::Word(line, at) => return self.word_place(way, line, at, details),
        };
        Ok(self.places.position(at))
    }

    // Where the word is that begins at a byte of a line of the text to which a way leads, and what is reported of the line. Where the file spells the line in
    // another way, the place is that of the line.
    fn word_place(
        &self,
        way: &[Step<'_>],
        line: usize,
        at: usize,
        details: &mut Details,
    ) -> Result<Position, AllocError> {
        let content = self.places.content_line(self.alloc, way, line)?;
        push_line(details, content.text.as_str())?;
        let start = self.places.position(content.at);
        let written = self.places.line(start.line);
        let written = written.get(start.column.saturating_sub(1)..).unwrap_or("");
        let before = bytes_before(content.text.as_str(), written, at);
        Ok(Position {
            line: start.line,
            column: start.column.saturating_add(before),
        })
    }

    // What a detail says of other places of the file than that of the fault, to which a way leads.
    fn push_elsewhere(
        &self,
        way: &[Step<'_>],
        detail: &Detail<'_>,
        details: &mut Details,
    ) -> Result<(), AllocError> {
        match detail {
            Detail::NamedFirst(first) => {
                let place = self.places.position(self.places.value(first.as_slice()));
                details.text("the name stands first on line ")?;
                details.number(place.line as u64)?;
                details.end()
            }
            Detail::Rule(Compared::Left(pushers)) => {
                self.push_pushers(way, pushers.as_slice(), details)
            }
            _ => Ok(()),
        }
    }

    // Which statements of the program to which a way leads pushed the operands that are left over.
    fn push_pushers(
        &self,
        way: &[Step<'_>],
        pushers: &[Pusher],
        details: &mut Details,
    ) -> Result<(), AllocError> {
        for pusher in pushers {
            match pusher.line {
                _ if pusher.number == 0 => details.text("the argument of the call")?,
                Some(line) => self.push_statement(way, line, details)?,
                None => {
                    details.text("what statement ")?;
                    details.number(pusher.number)?;
                    details.text(" pushed")?;
                }
            }
            details.line(" is left over")?;
        }
        Ok(())
    }

    // The statement on a line of the program to which a way leads, and the line of the file.
    fn push_statement(
        &self,
        way: &[Step<'_>],
        line: usize,
        details: &mut Details,
    ) -> Result<(), AllocError> {
        let content = self.places.content_line(self.alloc, way, line)?;
        details.text("what ")?;
        details.quoted(content.text.as_str().trim_matches(is_blank))?;
        details.text(" pushed on line ")?;
        details.number(self.places.position(content.at).line as u64)
    }

    /// Writes a fault of this line at a slot of what a way leads to.
    pub fn report<W: Write>(
        &self,
        out: &mut Counted<W>,
        fault: &str,
        way: &[Step<'_>],
        part: FaultPart,
        detail: &Detail<'_>,
    ) -> Result<(), ReportError>
        ensures { Reports W.contents self.now.path.now (fault.now ∷ []) out.old out.new result }
    {
        let mut details = Details::new(self.alloc);
        let position = self.place(way, part, &mut details)?;
        push_detail(&mut details, detail)?;
        self.push_elsewhere(way, detail, &mut details)?;
        put_fault(self.alloc, self.path, position, fault, &details, out)
    }

    /// Writes faults that were found.
    pub fn report_each<W: Write>(
        &self,
        out: &mut Counted<W>,
        found: &[FoundFault<'_>],
    ) -> Result<(), ReportError>
        ensures { Reports W.contents self.now.path.now (lines_found found.now) out.old out.new result }
    {
        for fault in found {
            self.report(
                out,
                fault.line.as_str(),
                fault.path.as_slice(),
                fault.part,
                &fault.detail,
            )?;
        }
        Ok(())
    }
}
