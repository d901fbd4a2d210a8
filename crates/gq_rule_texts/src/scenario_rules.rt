// The faults of a scenario: its text, its tables, its routes and its sums.
use crate::rule_table::{RuleText, entry};

/// The codes of S.
pub(crate) static SCENARIO: [RuleText; 15] = [
    entry!(
        "S1",
        "NotToml",
        "the scenario's text is no TOML, or no UTF-8",
        "\
The scenario's text is no TOML, or no UTF-8. TOML as version 1.1 has it: keys with values,
tables under headers in brackets.

What usually leads to it:
- a quote, a bracket, a comma or `=` is missing, often at the end of the line before
- a text stands without quotes, as in `quantum = 1M`
- a key or a header stands twice
- a program's `'''` is not closed

What to do: An editor that knows TOML marks the place; look at what stands right before it, too.
A quantity with a letter is a text: `quantum = \"1M\"`.",
        "trade: S1 NotToml"
    ),
    entry!(
        "S2",
        "MissingKey",
        "a table lacks a key that it has to have; the line names the key",
        "\
A table lacks a key that it has to have; the line names the key. `program` stands for a leaf
that has neither `program` nor `code`, `service` for a route that has neither `service` nor
`any-service`, `child` for a route without a target.

What usually leads to it:
- the key is forgotten; from version 2 on the top table and each node need `caps`, and each
  interface `need-caps`
- the key stands under another header: each key belongs to the last header above it, so those of
  the top table come before all headers

What to do: Add the key, or move it up or down to its table.",
        "trade: S2 MissingKey ram"
    ),
    entry!(
        "S3",
        "BadValue",
        "a key has a value of another type or out of its range; the line names the key",
        "\
A key has a value of another type or out of its range; the line names the key. What each key may
have stands in `docs/SCENARIOS.md`.

What usually leads to it:
- a number is out of range: `ram` is a multiple of 4096 from 4096 to 67108864
- a quantity is spelt otherwise than digits with perhaps one of K, M and G after them: \"4k\",
  \"1.5M\" and \"4 K\" are none
- `provides` names a service that has no `[interface.NAME]`, often by a slip in one of both
- two keys stand of which just one may: `program` and `code`, `service` and `any-service`, two
  of `child`, `any-child` and `parent`; the later one is told
- a name has more than 16 letters, or others than a to z, A to Z, 0 to 9, hyphen and underscore;
  of a service's it is told as `interface`
- `offers` is no table of names, as `offers = { echo = \"srv\" }` is
- `upgrade-caps` is of another length than `upgrades`, `upgrades` has more than 3, or `inputs`
  more than 8
- `code` is not made of pairs of hexadecimal digits

What to do: Write a value that the key may have.",
        "trade: S3 BadValue ram"
    ),
    entry!(
        "S4",
        "UnknownKey",
        "a table has a key that its kind of table does not have; the least of them in byte order is told",
        "\
A table has a key that its kind of table does not have; the least of them in byte order is told.
The line names the key where some other table has one of that name, and has `?` where none has.

What usually leads to it:
- it is misspelt: keys have small letters and hyphens, as `default-route`, and headers are
  `[interface.NAME]` and `[[start]]`
- it belongs to another table: `provides`, `after`, `inputs`, `signals`, `program` and `code` are
  a leaf's, `default-route` and `offers` those of a node with `start`; the root has no `offers`
- it is one of a later version: `caps`, `need-caps` and `upgrade-caps` are of version 2, `inputs`
  and `offers` of version 3, `signals` is of version 4
- it stands below a header that it was not meant for

What to do: Correct the key, move it to its table, or raise `version`.",
        "trade: S4 UnknownKey caps"
    ),
    entry!(
        "S5",
        "NameTwice",
        "a node has the name of a node before it; `init` is the root's",
        "\
A node has the name of a node before it; `init` is the root's. Names are unique in the whole
scenario, not only in an init.

What usually leads to it:
- a `[[start]]` was copied and kept its name
- two inits each have a leaf of the same name

What to do: Give the second node another name, and write that into the routes and the `after`
that mean it.",
        "trade: S5 NameTwice srv"
    ),
    entry!(
        "S6",
        "TooMany",
        "the text is longer than 1 MiB, or there are more than 64 leaves, inits below the root, interfaces, or routes in a list",
        "\
The text is longer than 1 MiB, or there are more than 64 leaves, inits below the root,
interfaces, or routes in a list.

What usually leads to it:
- a scenario was made by a script for more parts than a system has
- every leaf has a long list of routes

What to do: Make several systems of it. Routes that many leaves share are the `default-route` of
their init, and one with `any-service` stands for many.",
        "trade: S6 TooMany"
    ),
    entry!(
        "S7",
        "TooDeep",
        "a node stands at depth 5: the root is at depth 0, and nodes may be at depth 1 to 4",
        "\
A node stands at depth 5: the root is at depth 0, and nodes may be at depth 1 to 4. The line
names the node, or has `?` where its name is missing or bad.

What usually leads to it:
- an init holds an init that holds an init, and so on, once too often

What to do: Move the nodes of the innermost init up into the one that holds it, with their
quanta.",
        "trade: S7 TooDeep deep"
    ),
    entry!(
        "S8",
        "NoRoute",
        "the program of a leaf opens a service, and the leaf's routes lead to no server of it",
        "\
The program of a leaf opens a service, and the leaf's routes lead to no server of it. The leaf's
own `route` counts, and only where it has none its init's `default-route`. The first entry for
the service or for any service decides, and no later one is tried.

What usually leads to it:
- there is neither a `route` nor a `default-route`, or no entry for this service
- `child` names no node beside the leaf
- `any-child`, and no leaf beside it provides the service, nor does an init beside it offer it
- `parent` in the root, which has no parent; elsewhere the init's own routes are asked, and may
  lead nowhere

What to do: Give the leaf `route = [{ service = \"echo\", child = \"srv\" }]`, or its init
`default-route = [{ any-service = true, any-child = true }]`. To a server outside the init leads
`parent = true`, and to one inside an init beside the leaf what that init `offers`.",
        "trade: S8 NoRoute cli echo"
    ),
    entry!(
        "S9",
        "Ambiguous",
        "a route with `any-child` finds several nodes that serve the service",
        "\
A route with `any-child` finds several nodes that serve the service: leaves that provide it, and
inits that offer it. Only the nodes right in that init are looked at.

What usually leads to it:
- two servers of one service stand in the same init
- `provides` was copied together with a leaf
- an init offers what a leaf beside it provides

What to do: Name the server: `{ service = \"echo\", child = \"srv\" }`.",
        "trade: S9 Ambiguous cli echo"
    ),
    entry!(
        "S10",
        "Cycle",
        "a leaf comes back to itself by the servers of the services that are opened; the first such leaf is told",
        "\
A leaf comes back to itself by the servers of the services that are opened; the first such leaf
is told. An edge leads from a leaf to the server of each service for which its program has an
`open`. In a cycle each could wait for the next for ever.

What usually leads to it:
- two servers open sessions to one another
- `any-child` leads a server to itself, since the leaf counts among the children

What to do: Go from that leaf by its routes to the server of each `open`, and from there on, until
it comes up again. Take one `open` of that way round out, or route it to another server.",
        "trade: S10 Cycle terminal"
    ),
    entry!(
        "S11",
        "QuantaExceed",
        "the quanta that an init hands out at the start sum to more than its own quantum, for the root more than `ram`",
        "\
The quanta that an init hands out at the start sum to more than its own quantum, for the root
more than `ram`. A leaf with `after` does not count: it is handed the quantum of the leaf that
it starts after.

What usually leads to it:
- a leaf was added, or its quantum was raised, and the init's was not
- `ram` is a number of bytes where \"64K\" was meant

What to do: Lower a quantum, or raise that of the init and of each init above it.",
        "trade: S11 QuantaExceed init"
    ),
    entry!(
        "S12",
        "ProvidesDiffers",
        "a route names a `child` that does not serve the service: a leaf that does not provide it, or an init that does not offer it",
        "\
A route names a `child` that does not serve the service: a leaf that does not provide it, or an
init that does not offer it. Only by its `offers`, a key of version 3, do routes lead into an
init.

What usually leads to it:
- the wrong node is named
- the server lacks `provides`, or provides another service
- the server stands in the init that is named, which does not offer the service
- the first entry is one for `any-service`, and so it decides for this service, too

What to do: Name the leaf whose `provides` is the service or the init that offers it, or put an
entry for this service above.",
        "trade: S12 ProvidesDiffers cli echo"
    ),
    entry!(
        "S13",
        "BadAfter",
        "a leaf has an `after` that cannot be kept",
        "\
A leaf has an `after` that cannot be kept. A leaf with `after` starts when the named one has
exited, and is paid what that one gives back.

What usually leads to it:
- `after` names no leaf right in the same init: none, an init, or a leaf elsewhere
- the named leaf provides a service or has signals, and so never exits
- this leaf provides a service, and its clients could wait for ever
- an earlier leaf starts after the same one: the quantum can be handed on only once
- its quantum is greater than that of the named leaf
- its `caps` are more than those of the named leaf
- it comes back to itself: by `after` it starts after itself

What to do: Name a leaf beside it that ends and has at least as much; let leaves start one after
the other, each after the one before.",
        "trade: S13 BadAfter installer"
    ),
    entry!(
        "S14",
        "CapsExceed",
        "the capabilities that an init hands out at the start sum to more than its own `caps`, for the root more than the top table's",
        "\
The capabilities that an init hands out at the start sum to more than its own `caps`, for the
root more than the top table's. A leaf with `after` does not count.

What usually leads to it:
- a leaf was added, or its `caps` were raised, and the init's were not

What to do: Lower the `caps` of a node, or raise those of the init and of each init above it.",
        "trade: S14 CapsExceed init"
    ),
    entry!(
        "S15",
        "BadOffer",
        "an init offers a service that has no interface, or that the child named for it does not serve",
        "\
An init offers a service that has no interface, or that the child named for it does not serve.
A child serves a service if it is a leaf that provides it, or an init that offers it. The line
names the init. From version 3 on.

What usually leads to it:
- the service or the child is misspelt, or has another name elsewhere
- the child stands deeper, or beside the init: only the nodes right in it can be named
- the leaf that is named provides another service, or none
- the init that is named has no offer of this service itself

What to do: Name a node right in the init that provides or offers the service. From a server
further down each init on the way up offers it, with the name of the next one below.",
        "trade: S15 BadOffer drivers"
    ),
];
