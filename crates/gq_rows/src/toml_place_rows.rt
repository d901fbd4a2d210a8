// Places in TOML texts of every form, each as line:column. A path has its steps between slashes; `#2` is an index.
ghost use Rattle.std.specs.Prelude.{◌≤◌, length};

use gq_toml_places::{LineStarts, SourceMap, Step, not_toml};
use std::alloc::{AllocError, Global};
use std::test::Fail;

type LineColumn = (usize, usize);

// A text, a path, whether it is known, and where its table, its key and its value stand.
type Case = (
    &'static str,
    &'static str,
    bool,
    LineColumn,
    LineColumn,
    LineColumn,
);

// Keys, quoted keys and dotted keys.
const KEYS: [Case; 15] = [
    ("version = 1", "version", true, (1, 1), (1, 1), (1, 11)),
    ("a = 1\nb = 2\n", "b", true, (1, 1), (2, 1), (2, 5)),
    ("  a  =  1", "a", true, (1, 1), (1, 3), (1, 9)),
    (
        "# note\n\n\ta = true # why",
        "a",
        true,
        (1, 1),
        (3, 2),
        (3, 6),
    ),
    ("a = 1\r\nb = 2\r\n", "b", true, (1, 1), (2, 1), (2, 5)),
    ("\"a b\" = 1", "a b", true, (1, 1), (1, 1), (1, 9)),
    ("'a.b' = 1", "a.b", true, (1, 1), (1, 1), (1, 9)),
    ("\"\\u0061\" = 1", "a", true, (1, 1), (1, 1), (1, 12)),
    ("a.b.c = 1", "a/b/c", true, (1, 3), (1, 5), (1, 9)),
    ("a.b.c = 1", "a/b", true, (1, 3), (1, 3), (1, 3)),
    (
        "a . \"b\" = 1\na.c = 2",
        "a/c",
        true,
        (1, 1),
        (2, 3),
        (2, 7),
    ),
    ("a.b.c = 1", "a/x", false, (1, 1), (1, 1), (1, 1)),
    ("\u{feff}a = 1", "a", true, (1, 1), (1, 4), (1, 8)),
    ("3.14 = 'pi'", "3/14", true, (1, 1), (1, 3), (1, 8)),
    ("é = 1", "é", false, (1, 1), (1, 1), (1, 1)),
];

// Headers, implicit tables and arrays of tables.
const HEADERS: [Case; 17] = [
    ("[a]\nb = 1", "a/b", true, (1, 1), (2, 1), (2, 5)),
    ("[a]\nb = 1", "a", true, (1, 1), (1, 2), (1, 1)),
    (
        "x = 1\n[ a . b ]\nc = 1",
        "a/b/c",
        true,
        (2, 1),
        (3, 1),
        (3, 5),
    ),
    (
        "x = 1\n[ a . b ]\nc = 1",
        "a/b",
        true,
        (2, 1),
        (2, 7),
        (2, 1),
    ),
    ("x = 1\n[ a . b ]\nc = 1", "a", true, (2, 1), (2, 3), (2, 1)),
    ("[a.b]\n[a]\nc = 1", "a", true, (2, 1), (1, 2), (2, 1)),
    ("[a.b]\n[a]\nc = 1", "a/c", true, (2, 1), (3, 1), (3, 5)),
    (
        "[interface.echo]\narg = 1",
        "interface/echo/need",
        false,
        (1, 1),
        (1, 1),
        (1, 1),
    ),
    (
        "[[start]]\nname = 'a'\n[[start]]\nname = 'b'",
        "start/#1/name",
        true,
        (3, 1),
        (4, 1),
        (4, 8),
    ),
    (
        "[[start]]\nname = 'a'\n[[start]]\nname = 'b'",
        "start/#0",
        true,
        (1, 1),
        (1, 3),
        (1, 1),
    ),
    (
        "[[start]]\nname = 'a'\n[[start]]\nname = 'b'",
        "start",
        true,
        (1, 1),
        (1, 3),
        (1, 1),
    ),
    (
        "[[start]]\nname = 'a'\n",
        "start/#1/name",
        false,
        (1, 1),
        (1, 1),
        (1, 1),
    ),
    (
        "[[s]]\n[[s.s]]\nn = 1\n[[s.s]]\nn = 2\n[[s]]\n[[s.s]]\nn = 3",
        "s/#0/s/#1/n",
        true,
        (4, 1),
        (5, 1),
        (5, 5),
    ),
    (
        "[[s]]\n[[s.s]]\nn = 1\n[[s.s]]\nn = 2\n[[s]]\n[[s.s]]\nn = 3",
        "s/#1/s/#0/n",
        true,
        (7, 1),
        (8, 1),
        (8, 5),
    ),
    (
        "[[s]]\n[s.t]\nn = 1\n[[s]]\n[s.t]\nn = 2",
        "s/#1/t/n",
        true,
        (5, 1),
        (6, 1),
        (6, 5),
    ),
    (
        "[\"a b\".'c']\nd = 1",
        "a b/c/d",
        true,
        (1, 1),
        (2, 1),
        (2, 5),
    ),
    ("[a] # [b]\nc.d = 1", "a/c/d", true, (2, 1), (2, 3), (2, 7)),
];

// Inline tables, arrays, and values that hold what looks like keys.
const VALUES: [Case; 21] = [
    (
        "r = { a = 1, b = 2 }",
        "r/b",
        true,
        (1, 5),
        (1, 14),
        (1, 18),
    ),
    ("r = { a = 1, b = 2 }", "r", true, (1, 5), (1, 1), (1, 5)),
    (
        "r = { a.b = 1, a.c = 2 }",
        "r/a/c",
        true,
        (1, 7),
        (1, 18),
        (1, 22),
    ),
    (
        "r = {\n  a = 1, # one\n  b = 2,\n}",
        "r/b",
        true,
        (1, 5),
        (3, 3),
        (3, 7),
    ),
    (
        "r = [{ a = 1 }, { a = 2 }]",
        "r/#1/a",
        true,
        (1, 17),
        (1, 19),
        (1, 23),
    ),
    (
        "r = [{ a = 1 }, { a = 2 }]",
        "r/#1",
        true,
        (1, 17),
        (1, 17),
        (1, 17),
    ),
    (
        "r = [\n  { a = 1 },\n  # none\n  { a = 2 },\n]\n",
        "r/#1/a",
        true,
        (4, 3),
        (4, 5),
        (4, 9),
    ),
    (
        "r = [1, 2, { a = 3 }]",
        "r/#2/a",
        true,
        (1, 12),
        (1, 14),
        (1, 18),
    ),
    (
        "r = [1, 2, { a = 3 }]",
        "r/#1",
        false,
        (1, 1),
        (1, 1),
        (1, 1),
    ),
    (
        "r = [[{ a = 1 }], [1, { a = 2 }]]\nz = 1",
        "r/#1/#1/a",
        true,
        (1, 23),
        (1, 25),
        (1, 29),
    ),
    (
        "r = [[{ a = 1 }], [1, { a = 2 }]]\nz = 1",
        "z",
        true,
        (1, 1),
        (2, 1),
        (2, 5),
    ),
    ("r = []\nz = {}\ny = 1", "y", true, (1, 1), (3, 1), (3, 5)),
    ("a = \"b = 1\"\nb = 2", "b", true, (1, 1), (2, 1), (2, 5)),
    (
        "a = \"\\\"\\nb = 1\"\nb = 2",
        "b",
        true,
        (1, 1),
        (2, 1),
        (2, 5),
    ),
    ("a = '\\'\nb = 2", "b", true, (1, 1), (2, 1), (2, 5)),
    (
        "a = '''\nb = 1\n[b]\n'''\nb = 2",
        "b",
        true,
        (1, 1),
        (5, 1),
        (5, 5),
    ),
    (
        "a = \"\"\"\nb = 1 \\\n   \"\" \\\"\"\"\"\"\"\nb = 2",
        "b",
        true,
        (1, 1),
        (4, 1),
        (4, 5),
    ),
    (
        "a = 1979-05-27 07:32:00Z\nb = 2",
        "b",
        true,
        (1, 1),
        (2, 1),
        (2, 5),
    ),
    (
        "a = -inf\nb = 0xff_ff\nc = 6.6e-34",
        "c",
        true,
        (1, 1),
        (3, 1),
        (3, 5),
    ),
    ("a = 1\nb = = 2\nc = 3", "a", true, (1, 1), (1, 1), (1, 5)),
    ("a = 1\nb = = 2\nc = 3", "c", false, (1, 1), (1, 1), (1, 1)),
];

// Whether a path is known, and where its table, its key and its value stand.
type Found = (bool, LineColumn, LineColumn, LineColumn);

fn steps(alloc: Global, path: &'static str) -> Result<Vec<Step<'static>>, AllocError> {
    let mut steps = Vec::new(alloc);
    for word in path.split('/') {
        let step = match word.strip_prefix('#') {
            Some(index) => Step::Index(index.parse::<usize>().unwrap_or(99)),
            None => Step::Key(word),
        };
        steps.push(step)?;
    }
    Ok(steps)
}

fn line_column(places: &SourceMap<'_>, offset: usize) -> LineColumn
    requires { offset ≤ length places.now }
{
    let position = places.position(offset);
    (position.line, position.column)
}

fn found(places: &SourceMap<'_>, path: &[Step<'_>]) -> Found {
    (
        places.knows(path),
        line_column(places, places.table(path)),
        line_column(places, places.key(path)),
        line_column(places, places.value(path)),
    )
}

fn found_in(alloc: Global, text: &str, path: &'static str) -> Result<Found, AllocError> {
    let path = steps(alloc, path)?;
    match SourceMap::read(alloc, text) {
        Ok(places) => Ok(found(&places, path.as_slice())),
        Err(refused) => Err(refused),
    }
}

// The number of the first case that is found otherwise, with what is found.
fn first_wrong(alloc: Global, cases: &[Case]) -> Result<Option<(usize, Found)>, AllocError> {
    for (number, (text, path, known, table, key, value)) in cases.iter().enumerate() {
        let found = found_in(alloc, text, path)?;
        if found != (*known, *table, *key, *value) {
            return Ok(Some((number, found)));
        }
    }
    Ok(None)
}

#[test]
fn finds_places(rt: HostRuntime) -> Result<(), Fail> {
    let keys = first_wrong(rt.alloc(), &KEYS)?;
    let headers = first_wrong(rt.alloc(), &HEADERS)?;
    let values = first_wrong(rt.alloc(), &VALUES)?;
    assert_eq!(rt; [keys, headers, values], [None, None, None]);
    Ok(())
}

// A text with a string at the key `p`, a line of its contents, its text, and where it stands.
const CONTENTS: [(&str, usize, &str, LineColumn); 22] = [
    ("p = '''\nmain\n  out\nend\n'''", 1, "main", (2, 1)),
    ("p = '''\nmain\n  out\nend\n'''", 2, "  out", (3, 3)),
    ("p = '''\nmain\n  out\nend\n'''", 3, "end", (4, 1)),
    ("p = '''\nmain\n  out\nend\n'''", 4, "", (5, 1)),
    ("p = '''\nmain\n  out\nend\n'''", 5, "", (1, 1)),
    ("p = '''main\nout'''", 1, "main", (1, 8)),
    ("p = '''main\nout'''", 2, "out", (2, 1)),
    ("p = '''\r\nmain\r\n\tout\r\nend'''", 1, "main", (2, 1)),
    ("p = '''\r\nmain\r\n\tout\r\nend'''", 2, "\tout", (3, 2)),
    ("p = '''\\n\nout\\n'''", 2, "out\\n", (2, 1)),
    ("p = \"\"\"\nmain\n out\"\"\"", 2, " out", (3, 2)),
    ("p = \"\"\"main\\nout\\nend\"\"\"", 2, "out", (1, 14)),
    ("p = \"\"\"main\\nout\\nend\"\"\"", 3, "end", (1, 19)),
    ("p = \"\"\"\nmain \\\n   x\nout\"\"\"", 1, "main x", (2, 1)),
    ("p = \"\"\"\nmain \\\n   x\nout\"\"\"", 2, "out", (4, 1)),
    (
        "p = \"\"\"\\\n   main\n\\  \n\n  out\"\"\"",
        1,
        "main",
        (2, 4),
    ),
    (
        "p = \"\"\"\\\n   main\n\\  \n\n  out\"\"\"",
        2,
        "out",
        (5, 3),
    ),
    (
        "p = \"\"\"a\\u000Ab\\U0000000ac\\x0Ad\\u000Be\nf\"\"\"",
        4,
        "d\u{b}e",
        (1, 31),
    ),
    (
        "p = \"\"\"a\\\\nb\n\\\"\\\"\\\"c\"\"\"",
        2,
        "\"\"\"c",
        (2, 1),
    ),
    ("p = \"\"\"a\\\\nb\n\\\"\\\"\\\"c\"\"\"", 1, "a\\nb", (1, 8)),
    ("p = \"main\\nout\"", 2, "out", (1, 1)),
    ("p = 5", 1, "", (1, 1)),
];

// Where a line of the string stands, if it has this text.
fn line_column_of(
    alloc: Global,
    text: &str,
    number: usize,
    line: &str,
) -> Result<Option<LineColumn>, AllocError> {
    let places = SourceMap::read(alloc, text)?;
    match places.content_line(alloc, &[Step::Key("p")], number) {
        Ok(found) if found.text.as_str() == line => Ok(Some(line_column(&places, found.at))),
        Ok(_) => Ok(None),
        Err(refused) => Err(refused),
    }
}

fn first_wrong_line(alloc: Global) -> Result<Option<(usize, Option<LineColumn>)>, AllocError> {
    for (case, (text, number, line, wanted)) in CONTENTS.iter().enumerate() {
        let found = line_column_of(alloc, text, *number, line)?;
        if found != Some(*wanted) {
            return Ok(Some((case, found)));
        }
    }
    Ok(None)
}

#[test]
fn finds_lines_of_strings(rt: HostRuntime) -> Result<(), Fail> {
    let wrong = first_wrong_line(rt.alloc())?;
    assert_eq!(rt; wrong, None);
    Ok(())
}

// Texts that are no TOML, and where each stops being one; 0 where it is TOML.
const STOPS: [(&str, LineColumn); 16] = [
    ("a = 1\nb = 2\n", (0, 0)),
    ("version =", (1, 10)),
    ("a = 1\nquantum = 1M\n", (2, 11)),
    ("a = 1\n= 2", (2, 1)),
    ("a = 1 b = 2", (1, 7)),
    ("[a\nb = 1", (1, 3)),
    ("[[a]\nb = 1", (1, 5)),
    ("a = [1 2]", (1, 6)),
    ("a = ['1' '2']", (1, 10)),
    ("a = { b = 1 c = 2 }", (1, 13)),
    ("a = \"x\ny\"", (1, 7)),
    ("a = '''\nx", (2, 2)),
    ("a = \"\\q\"", (1, 7)),
    ("a = 1\na = 2", (2, 1)),
    ("[a]\nb = 1\n[a.b]\n", (3, 1)),
    ("a = 01\n", (1, 5)),
];

// Where a text stops being TOML, if it does.
fn stop_line_column(alloc: Global, text: &str) -> Result<LineColumn, AllocError> {
    let lines = LineStarts::read(alloc, text)?;
    match not_toml(alloc, text) {
        Ok(Some(stop)) if stop.at <= text.len() => {
            let position = lines.position(stop.at);
            Ok((position.line, position.column))
        }
        Ok(Some(_)) => Ok((9, 9)),
        Ok(None) => Ok((0, 0)),
        Err(refused) => Err(refused),
    }
}

fn first_wrong_stop(alloc: Global) -> Result<Option<(usize, LineColumn)>, AllocError> {
    for (case, (text, wanted)) in STOPS.iter().enumerate() {
        let found = stop_line_column(alloc, text)?;
        if found != *wanted {
            return Ok(Some((case, found)));
        }
    }
    Ok(None)
}

#[test]
fn finds_where_a_text_stops_being_toml(rt: HostRuntime) -> Result<(), Fail> {
    let wrong = first_wrong_stop(rt.alloc())?;
    assert_eq!(rt; wrong, None);
    Ok(())
}

#[test]
fn gives_lines_and_keys_as_they_are_written(rt: HostRuntime) -> Result<(), Fail> {
    let places = SourceMap::read(rt.alloc(), "[a.\"b \\\" c\"]\r\n'RAM' = 1\nneed-caps=2\n")?;
    let [a, b] = [Step::Key("a"), Step::Key("b \" c")];
    let keys = [
        places.written_key(&[a, b]),
        places.written_key(&[a, b, Step::Key("RAM")]),
        places.written_key(&[a, b, Step::Key("need-caps")]),
        places.written_key(&[Step::Key("x")]),
    ];
    let lines = [
        places.line(0),
        places.line(1),
        places.line(2),
        places.line(4),
        places.line(5),
    ];
    drop(places);
    let table = "\"b \\\" c\"";
    assert_eq!(rt;
        (keys, lines),
        (
            [table, "'RAM'", "need-caps", ""],
            ["", "[a.\"b \\\" c\"]", "'RAM' = 1", "", ""]
        )
    );
    Ok(())
}

// An array with so many others in it, around a table with the key `a`.
fn nested(alloc: Global, depth: usize) -> Result<String, AllocError> {
    let mut text = String::from_str(alloc, "r = ")?;
    for _ in 0..depth {
        text.push('[')?;
    }
    text.push_str("{ a = 1 }")?;
    for _ in 0..depth {
        text.push(']')?;
    }
    Ok(text)
}

// Whether a text of that depth is TOML, and whether the table in it is known.
fn depth_known(alloc: Global, depth: usize) -> Result<(bool, bool), AllocError> {
    let text = nested(alloc, depth)?;
    let path = path_into(alloc, depth)?;
    let is_toml = not_toml(alloc, text.as_str())?.is_none();
    match SourceMap::read(alloc, text.as_str()) {
        Ok(places) => Ok((is_toml, places.knows(path.as_slice()))),
        Err(refused) => Err(refused),
    }
}

fn path_into(alloc: Global, depth: usize) -> Result<Vec<Step<'static>>, AllocError> {
    let mut path = Vec::new(alloc);
    path.push(Step::Key("r"))?;
    for _ in 0..depth {
        path.push(Step::Index(0))?;
    }
    path.push(Step::Key("a"))?;
    Ok(path)
}

#[test]
fn goes_sixteen_deep(rt: HostRuntime) -> Result<(), Fail> {
    let inside = depth_known(rt.alloc(), 14)?;
    let deeper = depth_known(rt.alloc(), 15)?;
    let deepest = depth_known(rt.alloc(), 79)?;
    let past = depth_known(rt.alloc(), 80)?;
    let known = [inside, deeper, deepest, past];
    assert_eq!(rt;
        known,
        [(true, true), (true, false), (true, false), (false, false)]
    );
    Ok(())
}
