// The faults of budgets and of turns, and the wrong steps.
use crate::rule_table::{RuleText, entry};

/// The codes of B.
pub(crate) static BUDGETS: [RuleText; 3] = [
    entry!(
        "B1",
        "OverQuantum",
        "a leaf's `main` may hold and have lent more bytes at one point than its quantum",
        "\
A leaf's `main` may hold and have lent more bytes at one point than its quantum. `own` is the
most at one point: spaces, slices, large blocks and the tables of pools in whole pages, the
pages of its heap, and what it has given with sessions that are open then.

What usually leads to it:
- the quantum counts bytes where whole pages of 4096 are paid, and 32 bytes more for a slice
- several sessions or slots are held at the same time that could follow one another

What to do: Raise the leaf's `quantum` to `own`, and with it what the init has; or free and
close earlier. `docs/MACHINE.md` has the prices that are summed.",
        "trade: cli: B1 OverQuantum own 8192 quantum 4096"
    ),
    entry!(
        "B2",
        "OverSteps",
        "a leaf may take more than 10^12 steps in all from the start, or for one signal",
        "\
A leaf may take more than 10^12 steps in all from the start, or for one signal of a leaf each
time that it is taken. What each section costs is taken as often as clients ask for it, along
all chains of use.

What usually leads to it:
- clients call a server from `loop`s in `loop`s, each call with a long section
- servers stand behind servers, and each asks the next many times

What to do: Ask less often, or for more at a time; shorten the section that is asked for.",
        "trade: srv: B2 OverSteps"
    ),
    entry!(
        "B3",
        "OverCaps",
        "a leaf's `main` may hold and have lent more capabilities at one point than its `caps`",
        "\
A leaf's `main` may hold and have lent more capabilities at one point than its `caps`. From
version 2 on. Each space, slice, large block and pool costs one, the heap one for each page, and
a session the `need-caps` and `upgrade-caps` that are given.

What usually leads to it:
- `caps` was not raised with a slot or a session more
- blocks of the heap are forgotten, whose pages cost one each

What to do: Raise the leaf's `caps`, and with them those of the init; or free and close earlier.",
        "trade: cli: B3 OverCaps own 2 caps 1"
    ),
];

/// The codes of U.
pub(crate) static TURNS: [RuleText; 6] = [
    entry!(
        "U1",
        "BadLine",
        "a line of the turns is not a leaf's name, one blank and a number of one to seven digits that does not begin with 0, nor a setting, a signal or `rest`",
        "\
A line of the turns is not a leaf's name, one blank and a number of one to seven digits that
does not begin with 0, nor a setting, a signal or `rest`. A setting is a leaf's name, a dot, a
digit from 0 to 7, one blank, `=`, one blank, and one to ten digits of a number up to
4294967295. It may stand from version 3 on. A signal is a leaf's name, `!` and a digit from 0 to
2. It may stand from version 4 on, as may `rest`. An empty line says nothing, nor does one that
begins with `#`.

What usually leads to it:
- two blanks, a blank at the end, or a tab
- a number is missing, is 0, begins with 0, or has a sign
- no blank beside the `=` of a setting, or a setting in version 1 or 2
- a blank beside the `!` of a signal, or a signal or `rest` in versions 1 to 3

What to do: Write lines as `cli 12`, settings as `drv.0 = 500`, and signals as `timer!0`.",
        "trade: U1 BadLine line 1"
    ),
    entry!(
        "U2",
        "NoSuchComponent",
        "the name in a line of the turns is not that of a leaf",
        "\
The name in a line of the turns is not that of a leaf. Inits take no turns, and so `init` is no
such name.

What usually leads to it:
- the name is misspelt, or the leaf was renamed in the scenario

What to do: Write the name of a leaf: `trade check` prints a line for each.",
        "trade: U2 NoSuchComponent line 1"
    ),
    entry!(
        "U3",
        "TooMany",
        "there are more than 1,000,000 turns with this line, or the text of the turns is longer than 16 MiB, which is told at line 0",
        "\
There are more than 1,000,000 turns with this line, or the text of the turns is longer than 16
MiB, which is told at line 0.

What usually leads to it:
- turns are given that no leaf needs: a leaf takes at most its budget of steps

What to do: Give fewer turns: `trade check` tells the budget of each leaf.",
        "trade: U3 TooMany line 2"
    ),
    entry!(
        "U4",
        "NoInput",
        "a setting is of an input that the leaf has not",
        "\
A setting is of an input that the leaf has not. The key `inputs` of a leaf has the greatest
values of its inputs, from input 0 on.

What usually leads to it:
- `inputs` has too few numbers: input 1 needs two of them
- the input is another leaf's: a server reads its own inputs, and so they are set there

What to do: Give the leaf the input, or set one that it has: `trade tree` prints the greatest
values of each leaf's inputs.",
        "trade: U4 NoInput line 1"
    ),
    entry!(
        "U5",
        "InputTooLarge",
        "the value of a setting is above the greatest value of the input",
        "\
The value of a setting is above the greatest value of the input, which the key `inputs` of the
leaf has. The verifier counts on no value above it.

What usually leads to it:
- a value in another unit than the program expects
- the greatest value in the scenario was lowered

What to do: Give a value up to the greatest, or raise the greatest in the scenario and check
that it is still accepted.",
        "trade: U5 InputTooLarge line 1"
    ),
    entry!(
        "U6",
        "NoSignal",
        "a signal is submitted that the leaf has not",
        "\
A signal is submitted that the leaf has not. The key `signals` of a leaf says how many it has;
they are numbered from 0.

What usually leads to it:
- `signals` is too small: signal 1 needs `signals = 2`
- the signal is another leaf's: a driver takes it, and calls whoever is to know

What to do: Give the leaf the signal and a section `on i`, or submit one that it has: `trade
tree` prints how many signals each leaf has.",
        "trade: U6 NoSignal line 1"
    ),
];

/// The codes of X.
pub(crate) static STEPS: [RuleText; 5] = [
    entry!(
        "X1",
        "MissingOperand",
        "a step takes an operand that is not there, has no place for a 17th, or asks for the round of a loop that it is not in",
        "\
A step takes an operand that is not there, has no place for a 17th, or asks for the round of a
loop that it is not in. No run of a scenario that `trade check` accepts comes to it: the
verifier's rules rule it out. Only runs in tests that leave these rules out tell it, with the
leaf's name.

What usually leads to it:
- the program breaks `V1` or `V2`

What to do: See `trade rule V1` and `trade rule V2`.",
        "wrong cli X1"
    ),
    entry!(
        "X2",
        "WrongKind",
        "a step finds a slot of another kind than it needs, or a section or a leaf ends with slots as it may not",
        "\
A step finds a slot of another kind than it needs, or a section or a leaf ends with slots as it
may not. No run of a scenario that `trade check` accepts comes to it: the verifier's rules rule
it out. Only runs in tests that leave these rules out tell it, with the leaf's name.

What usually leads to it:
- the program breaks `V4`, `V5`, `V9` or `V14`

What to do: See the texts of these codes.",
        "wrong srv X2"
    ),
    entry!(
        "X3",
        "UnmappedByte",
        "a step reads or writes past the bytes of a slot, or past the entries of a pool",
        "\
A step reads or writes past the bytes of a slot, or past the entries of a pool. No run of a
scenario that `trade check` accepts comes to it: the verifier's rules rule it out. Only runs in
tests that leave these rules out tell it, with the leaf's name.

What usually leads to it:
- the program breaks `V6`

What to do: See `trade rule V6`.",
        "wrong cli X3"
    ),
    entry!(
        "X4",
        "ExceededQuota",
        "after a step some leaf would hold and have lent more than it was handed and has received",
        "\
After a step some leaf would hold and have lent more than it was handed and has received. No run
of a scenario that `trade check` accepts comes to it: the verifier's rules rule it out. Only
runs in tests that leave these rules out tell it, with the leaf's name.

What usually leads to it:
- the program breaks `V12`, `V13` or `V18`, or its leaf `B1` or `B3`

What to do: See the texts of these codes.",
        "wrong cli X4"
    ),
    entry!(
        "X5",
        "MissingSection",
        "a request is accepted, or a signal taken, whose section is not in the leaf's program",
        "\
A request is accepted, or a signal taken, whose section is not in the leaf's program. No run of
a scenario that `trade check` accepts comes to it: the verifier's rules rule it out. Only runs
in tests that leave these rules out tell it, with the leaf's name.

What usually leads to it:
- the program breaks `V16`

What to do: See `trade rule V16`.",
        "wrong srv X5"
    ),
];
