// The rules of the verifier.
use crate::rule_table::{RuleText, entry};

/// The codes of V.
pub(crate) static VERIFIER: [RuleText; 19] = [
    entry!(
        "V1",
        "MissingOperand",
        "a statement takes an operand that is not there, `call l` ends without its reply, or `index d` stands in d loops or fewer",
        "\
A statement takes an operand that is not there, `call l` ends without its reply, or `index d`
stands in d loops or fewer. The operands before each statement are the same on each way to it,
so this is known before the program runs.

What usually leads to it:
- a `push` is missing, or `drop`, `out` or `set` took the value away
- `call l` has to end with one operand, the reply
- an `if` takes its condition from the stack

What to do: Put the operand there first; `dup` keeps a value that is needed again.",
        "trade: hello: V1 MissingOperand in main at 1"
    ),
    entry!(
        "V2",
        "StackTooDeep",
        "there would be a 17th operand",
        "\
There would be a 17th operand.

What usually leads to it:
- values are pushed and not used

What to do: Keep values in locals, with `set` and `get`, or in bytes of a slot.",
        "trade: hello: V2 StackTooDeep in main at 17"
    ),
    entry!(
        "V3",
        "LeftoverOperand",
        "an operand is left at the end of an arm, a body or a section, or before an `if` or a `loop` besides its condition",
        "\
An operand is left at the end of an arm, a body or a section, or before an `if` or a `loop`
besides its condition. Arms and bodies begin and end without operands. A place one past the last
statement is the section's end.

What usually leads to it:
- the result of `call`, `take` or `give` is not used
- a value is meant to be handed out of an arm or into a loop

What to do: `drop` what is not needed; carry values in and out by locals: `set 0` before, `get
0` after.",
        "trade: hello: V3 LeftoverOperand in main at 2"
    ),
    entry!(
        "V4",
        "WrongKind",
        "a slot does not hold what the statement needs, or a session's slot or `obj` is used in `main` or in `on i`",
        "\
A slot does not hold what the statement needs, or a session's slot or `obj` is used in `main` or
in `on i`. Bytes are read in blocks, slices, spaces, `obj` and links with a buffer; `take`,
`give`, `peek` and `poke` need a pool; `call`, `upgrade` and `close` a link; `free` something
that is no link.

What usually leads to it:
- the slot is empty, or was freed
- `free` stands where `close` is meant
- `s0` to `s7` stand in `main` or in `on i`, which have no session

What to do: Use the slot that holds the thing, or make it first.",
        "trade: hello: V4 WrongKind in main at 1"
    ),
    entry!(
        "V5",
        "SlotInUse",
        "a statement fills a slot that is not empty",
        "\
A statement fills a slot that is not empty.

What usually leads to it:
- the same slot is filled twice
- a `loop` fills a slot and does not free it in the same round

What to do: `free` or `close` the slot before, or take another.",
        "trade: hello: V5 SlotInUse in main at 2"
    ),
    entry!(
        "V6",
        "OutOfRange",
        "an index may be past the bytes, the entries or an entry's bytes, or an upgrade is past those of the interface",
        "\
An index may be past the bytes, the entries or an entry's bytes, or an upgrade is past those of
the interface. What counts is the greatest value that the index can have, not the one that it
has. `load4` and `store4` need four bytes from it on. A space has whole pages, and other memory
just its bytes.

What usually leads to it:
- the index comes from a local without a limit, from a call's argument, from an input or from
  arithmetic, whose greatest value is far above
- `upgrade` of a link that has had all upgrades

What to do: Bound it: `mod n` makes it less than n, and `local i n` limits a local. Or make the
memory larger.",
        "trade: hello: V6 OutOfRange in main at 3"
    ),
    entry!(
        "V7",
        "ValueTooLarge",
        "a value may be greater than a local's limit, than the `arg` of a call, or than the interface's `reply` at the end of `call l`",
        "\
A value may be greater than a local's limit, than the `arg` of a call, or than the interface's
`reply` at the end of `call l`. What counts is the greatest value that it can have. `sub` can
have any, since it wraps below 0.

What usually leads to it:
- a sum or a product can pass the limit
- a server's reply is computed from an argument as large as `arg`

What to do: Bound it by `mod n` or `and`, raise the local's limit, or raise `arg` or `reply` of
the interface.",
        "trade: cli: V7 ValueTooLarge in main at 3"
    ),
    entry!(
        "V8",
        "JoinDiffers",
        "slots hold something else after one arm of an `if` than after the other, or after a `loop`'s body than before it",
        "\
Slots hold something else after one arm of an `if` than after the other, or after a `loop`'s
body than before it. Kinds are equal when all their numbers are: a space of 10 bytes and one of
20 differ, and so do links of other levels. The place is that of the `if` or the `loop`.

What usually leads to it:
- a slot is filled or freed in one arm alone
- a round leaves a slot in use that was empty before it

What to do: Do the same in the other arm, or free before the arm or the round ends.",
        "trade: hello: V8 JoinDiffers in main at 2"
    ),
    entry!(
        "V9",
        "SessionBankChanged",
        "a server's section leaves the slots of its session as it may not",
        "\
A server's section leaves the slots of its session as it may not. With a buffer, `open` ends
with `s0` a space of just `buffer` bytes, which `up l` and `call l` keep. `call l` ends with the
slots that it began with, and `close l` with all of them empty.

What usually leads to it:
- `open` lacks `space s0 n`, or n is not the interface's `buffer`
- `close l` frees less than `open` and the upgrades up to level l made
- `call l` keeps something for the next call in a slot

What to do: Make in `open` and `up l` what a session needs, keep values in it, and free all in
each `close l`.",
        "trade: srv: V9 SessionBankChanged in open at 1"
    ),
    entry!(
        "V10",
        "OwnBankChanged",
        "outside `main` a section fills or empties a slot of the leaf's own",
        "\
Outside `main` a section fills or empties a slot of the leaf's own. `space`, `slice`, `block`,
`pool`, `free`, `open`, `upgrade` and `close` of an own slot stand in `main` alone. Other
sections may read and write what is there, and call links that are there.

What usually leads to it:
- a server makes memory for a session in `o0` where `s0` is meant

What to do: Use a slot of the session, or make it in `main`.",
        "trade: srv: V10 OwnBankChanged in open at 1"
    ),
    entry!(
        "V11",
        "HeapInSession",
        "a slot of a session gets a block or a pool",
        "\
A slot of a session gets a block or a pool. The heap is the leaf's own, and a session pays by
whole pages for what it has.

What usually leads to it:
- `block` or `pool` has `s0` to `s7` as its slot

What to do: Use `slice` or `space` for the session, or a pool of the leaf's own that `main`
makes for all sessions.",
        "trade: srv: V11 HeapInSession in call 0 at 1"
    ),
    entry!(
        "V12",
        "ShortDonation",
        "an `open` gives fewer bytes than the interface's `need`, or an `upgrade` fewer than its level asks for",
        "\
An `open` gives fewer bytes than the interface's `need`, or an `upgrade` fewer than its level
asks for. The bytes are the last operand of the statement. The server pays from them for the
session, and gives all of them back at `close`.

What usually leads to it:
- the `need` of the interface was raised, and its clients were not changed
- an amount was counted in other units: programs have plain bytes, so 8K is 8192

What to do: Give at least what the interface needs, in each client: `open o0 echo 8192`. Its keys
`need` and `upgrades` have the amounts.",
        "trade: cli: V12 ShortDonation in main at 1"
    ),
    entry!(
        "V13",
        "OverNeed",
        "at one point of a server's section a session costs more than what its client has given for its level",
        "\
At one point of a server's section a session costs more than what its client has given for its
level. The session's object, its slots and what its links give are summed, in whole pages of
4096 bytes, and compared with the `need` plus the upgrades up to its level. A slice, and so the
object, has 32 bytes more.

What usually leads to it:
- the `need` counts the bytes alone, and not the pages: an object of 100 bytes costs 4096, one
  of 4096 costs 8192
- a section makes a slot that `need` was not raised for
- a server opens a session of its own for its client, with more than it was given

What to do: Raise `need`, or the upgrade of the level, in the interface, and with it what
clients give; or make less. `docs/MACHINE.md` has the prices that are summed.",
        "trade: srv: V13 OverNeed in open at 1"
    ),
    entry!(
        "V14",
        "LinkLeftOpen",
        "the `main` of a leaf that provides nothing and has no signals ends with an open session",
        "\
The `main` of a leaf that provides nothing and has no signals ends with an open session. Such a
leaf exits, and what it has given has to come back to it first.

What usually leads to it:
- a `close` is missing
- `signals` is missing at a leaf that is to go on

What to do: `close` each slot that `open` filled.",
        "trade: cli: V14 LinkLeftOpen in main at 2"
    ),
    entry!(
        "V15",
        "UnknownService",
        "an `open` names a service that has no interface",
        "\
An `open` names a service that has no interface.

What usually leads to it:
- the name is misspelt, here or in `[interface.NAME]`
- the interface is missing

What to do: Write the name of an interface of the scenario, or add the interface.",
        "trade: cli: V15 UnknownService in main at 1"
    ),
    entry!(
        "V16",
        "MissingSection",
        "a program lacks a section that it needs, or has one too many; the place is 0",
        "\
A program lacks a section that it needs, or has one too many; the place is 0. Each leaf has
`main`. One that provides a service with u upgrades has `open`, `up 1` to `up u`, `call 0` to
`call u` and `close 0` to `close u` as well, none of them missing, though they may be empty but
for the reply of a call. One with n signals has `on 0` to `on n - 1` as well.

What usually leads to it:
- `upgrades` got one more entry, and the server no `up`, `call` and `close` for it
- `provides` is missing at a leaf that has `open`, or stands at one that is no server
- `signals` is missing at a leaf that has `on 0`, or is greater than its sections are many

What to do: Add the section, take it out, or correct `provides`, `upgrades` or `signals`.",
        "trade: srv: V16 MissingSection in close 0 at 0"
    ),
    entry!(
        "V17",
        "BudgetTooLarge",
        "a section may take more than 10^12 steps",
        "\
A section may take more than 10^12 steps. A `loop n` costs n times its body.

What usually leads to it:
- `loop`s of many rounds stand in one another

What to do: Use fewer rounds, or part the work among calls.",
        "trade: hello: V17 BudgetTooLarge in main at 5"
    ),
    entry!(
        "V18",
        "OverCaps",
        "at one point of a server's section a session costs more capabilities than what its client has given for its level",
        "\
At one point of a server's section a session costs more capabilities than what its client has
given for its level. From version 2 on. The object, each space and each slice of the session's
slots cost one, and its links what they give; together at most `need-caps` plus the
`upgrade-caps` up to the level.

What usually leads to it:
- `need-caps` is 0, though each session has an object, which costs one
- a section makes one slot more than was counted

What to do: Raise `need-caps`, or `upgrade-caps` for a level from 1 on.",
        "trade: srv: V18 OverCaps in open at 0"
    ),
    entry!(
        "V19",
        "NoInput",
        "`in i` stands in the program of a leaf that has no input i",
        "\
`in i` stands in the program of a leaf that has no input i. The key `inputs` of a leaf has the
greatest values of its inputs, from input 0 on. A leaf without the key has no inputs, as every
leaf of versions 1 and 2.

What usually leads to it:
- `inputs` has too few numbers: `in 1` needs two of them
- the input is another leaf's: the sections of a server read the server's own inputs
- the scenario is of version 1 or 2

What to do: Give the leaf the input, as `inputs = [1000]` in a scenario with `version = 3`. Or
call a server that has it, and take its value from the reply.",
        "trade: drv: V19 NoInput in call 0 at 1"
    ),
];
