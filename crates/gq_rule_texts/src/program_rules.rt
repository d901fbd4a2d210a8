// The faults of program text and of code.
use crate::rule_table::{RuleText, entry};

/// The codes of M.
pub(crate) static TEXT: [RuleText; 8] = [
    entry!(
        "M1",
        "UnknownWord",
        "a line of a program has a word that can not stand there, or a word too many",
        "\
A line of a program has a word that can not stand there, or a word too many. Lines are counted
from 1 in the program's own text. The first faulty line is told.

What usually leads to it:
- a statement is misspelt
- a statement stands outside sections, or a section begins before the one above has its `end`
- a statement has an operand too many, as `out 1`

What to do: Correct the word. Outside sections stand only `local i n`, `main`, `open`, `up l`,
`call l`, `close l` and `on i`.",
        "trade: hello: M1 UnknownWord line 2"
    ),
    entry!(
        "M2",
        "BadNumber",
        "a number is missing, malformed or out of its range",
        "\
A number is missing, malformed or out of its range. Numbers are one to ten decimal digits. K, M
and G are for the scenario's quantities alone.

What usually leads to it:
- an operand is missing, as in `push`
- a sign, a letter or a comma stands in it, as in `push -1`
- it is out of range: `loop` has 1 to 65535, `div` and `mod` at least 1, `up` 1 to 3, `call` and
  `close` 0 to 3, `on` 0 to 2, a local or an input is 0 to 7

What to do: Write a number within the statement's range. To subtract, `push` both and `sub`.",
        "trade: hello: M2 BadNumber line 3"
    ),
    entry!(
        "M3",
        "BadSlot",
        "a slot is missing, malformed or not allowed there",
        "\
A slot is missing, malformed or not allowed there. Slots are `o0` to `o63`, the leaf's own, and
`s0` to `s7`, the session's. `obj`, the session's object, is for `load`, `store`, `load4` and
`store4` alone.

What usually leads to it:
- the slot is forgotten, or stands after the number
- it has a leading zero, as `o07`, or is past the last, as `o64`

What to do: Write the slot as the first operand.",
        "trade: hello: M3 BadSlot line 2"
    ),
    entry!(
        "M4",
        "Unclosed",
        "the program's text ends inside a block; the line is the one that opened the innermost",
        "\
The program's text ends inside a block; the line is the one that opened the innermost. It is met
at the end of the text, and so only where no line is faulty.

What usually leads to it:
- a section, an `if` or a `loop` lacks its `end`

What to do: Add `end`: one closes one block, so a section with a `loop` in it ends in two.",
        "trade: hello: M4 Unclosed line 1"
    ),
    entry!(
        "M5",
        "StrayEnd",
        "an `end` or an `else` has no block that it belongs to",
        "\
An `end` or an `else` has no block that it belongs to.

What usually leads to it:
- an `end` too many closed a section, and the next one stands outside
- an `else` stands outside an `if`, or is its second

What to do: Count the blocks up to this line: each `if`, `loop` and section has just one `end`,
and an `if` at most one `else`.",
        "trade: hello: M5 StrayEnd line 4"
    ),
    entry!(
        "M6",
        "BadText",
        "a text to say or the name of a service is malformed",
        "\
A text to say or the name of a service is malformed. A text stands in quotes, has at most 64
bytes, none but 0x20 to 0x7e and no quote. A name has 1 to 16 letters, digits, hyphens and
underscores.

What usually leads to it:
- the quotes are missing, or something follows the second one
- the text is too long, or has a letter that is not ASCII
- `open` lacks the name of the service

What to do: Write `say \"hello\"`, and `open o0 echo 8192`.",
        "trade: hello: M6 BadText line 2"
    ),
    entry!(
        "M7",
        "SectionTwice",
        "a section, or the limit of a local, is given twice",
        "\
A section, or the limit of a local, is given twice.

What usually leads to it:
- a section was copied and kept its level, as a second `call 0` where `call 1` was meant

What to do: Take the second out, or give it the level that it is for.",
        "trade: hello: M7 SectionTwice line 3"
    ),
    entry!(
        "M8",
        "TooLong",
        "a program has a 4097th statement, or a fifth block in one another",
        "\
A program has a 4097th statement, or a fifth block in one another. `if` and `loop` count as
statements.

What usually leads to it:
- statements are written out that a `loop` could repeat
- a `loop` or an `if` stands in four others

What to do: Use a `loop`, or part the work among leaves. Nested tests can often stand one after
the other, with `and` between their conditions.",
        "trade: hello: M8 TooLong line 4097"
    ),
];

/// The codes of C.
pub(crate) static CODE: [RuleText; 6] = [
    entry!(
        "C1",
        "Truncated",
        "the code of a program ends too early",
        "\
The code of a program ends too early. It ends in the limits of locals, in the bits of its
sections or in a section's length, or that length is more than what is left.

What usually leads to it:
- digits were lost when the code was copied
- `code` is empty

What to do: Take the code anew from `trade asm SCENARIO LEAF`.",
        "trade: hello: C1 Truncated"
    ),
    entry!(
        "C2",
        "UnknownOpcode",
        "the code of a program has a byte for a statement that there is none for",
        "\
The code of a program has a byte for a statement that there is none for.

What usually leads to it:
- a byte before it was changed, so that all that follows is read at the wrong place

What to do: Take the code anew from `trade asm SCENARIO LEAF`. `docs/MACHINE.md` has the number
of each statement.",
        "trade: hello: C2 UnknownOpcode"
    ),
    entry!(
        "C3",
        "BadOperand",
        "a number, a text or a slot in the code of a program is out of its range",
        "\
A number, a text or a slot in the code of a program is out of its range. So is a local's limit
of 4294967295, which is the one that a local has without being told.

What usually leads to it:
- the code was made or changed by hand, or by another tool

What to do: Compare with the ranges of the same statement in program text.",
        "trade: hello: C3 BadOperand"
    ),
    entry!(
        "C4",
        "BadNesting",
        "a statement, an arm or a body in the code goes past the end of what it stands in, or there is a fifth block in one another",
        "\
A statement, an arm or a body in the code goes past the end of what it stands in, or there is a
fifth block in one another.

What usually leads to it:
- the length of a section, an arm or a body does not fit what stands in it

What to do: Take the code anew from `trade asm SCENARIO LEAF`, or correct the length.",
        "trade: hello: C4 BadNesting"
    ),
    entry!(
        "C5",
        "TooLong",
        "the code of a program has a 4097th statement",
        "\
The code of a program has a 4097th statement. `if` and `loop` count as statements.

What usually leads to it:
- statements are written out that a `loop` could repeat

What to do: Use a `loop`, or part the work among leaves.",
        "trade: hello: C5 TooLong"
    ),
    entry!(
        "C6",
        "TrailingBytes",
        "bytes follow the last section in the code of a program",
        "\
Bytes follow the last section in the code of a program.

What usually leads to it:
- two codes were joined
- the bits that say which sections are there lack one

What to do: Take the bytes after the last section away, or set the bit of the section that they
are.",
        "trade: hello: C6 TrailingBytes"
    ),
];
