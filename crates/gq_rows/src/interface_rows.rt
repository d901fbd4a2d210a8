// Interfaces.
use gq_program::{Interface, Interfaces, Name, Upgrade};
use std::alloc::{AllocError, Global};
use std::test::Fail;

/// Without a buffer, of version 1.
fn echo() -> Interface {
    Interface::new(1000, 2000, 8192, None).with_object(100)
}

/// With a buffer and a second level.
fn log() -> Interface {
    let second = Upgrade::new(4096, 0);
    Interface::new(10, 255, 8192, None)
        .with_upgrade(second)
        .with_buffer(16)
}

/// The greatest argument and reply, and what a session needs, in bytes and in capabilities.
fn limits(interface: &Interface) -> (u32, u32, u32, Option<u32>) {
    (
        interface.arg(),
        interface.reply(),
        interface.need(),
        interface.need_caps(),
    )
}

/// The bytes of the object and of the buffer, how many further levels there are, and the bytes and the capabilities of the first of them.
fn rest(interface: &Interface) -> (u32, u32, usize, Option<(u32, u32)>) {
    let upgrades = interface.upgrades();
    let first = match upgrades {
        [first, ..] => Some((first.ram(), first.caps())),
        [] => None,
    };
    (
        interface.object(),
        interface.buffer(),
        upgrades.len(),
        first,
    )
}

#[test]
fn keeps_what_is_given(rt: HostRuntime) {
    let (echo, log) = (echo(), log());
    assert_eq!(rt;
        (limits(&echo), rest(&echo), rest(&log)),
        (
            (1000, 2000, 8192, None),
            (100, 0, 0, None),
            (0, 16, 1, Some((4096, 0)))
        )
    );
}

#[test]
fn counts_capabilities_in_version_2(rt: HostRuntime) {
    let second = Upgrade::new(4096, 2);
    let counted = Interface::new(0, 0, 0, Some(3)).with_upgrade(second);
    assert_eq!(rt;
        (limits(&counted), rest(&counted)),
        ((0, 0, 0, Some(3)), (0, 0, 1, Some((4096, 2))))
    );
}

/// An entry of this name.
fn entry(name: &[u8], interface: Interface) -> Result<(Name, Interface), Fail> {
    match Name::new(name) {
        Some(name) => Ok((name, interface)),
        None => Err(Fail::from("a name")),
    }
}

/// These two in a list.
fn pair(
    alloc: Global,
    first: (Name, Interface),
    second: (Name, Interface),
) -> Result<Vec<(Name, Interface)>, AllocError> {
    Ok(vec![in alloc; first, second]?)
}

/// How many interfaces there are, whether `log` and `echo` are found by their names, and whether none is by a prefix of a name.
fn found(interfaces: &Interfaces) -> (usize, bool, bool, bool) {
    (
        interfaces.entries().len(),
        matches!(interfaces.named(b"log"), Some(log) if log.arg() == 10),
        matches!(interfaces.named(b"echo"), Some(echo) if echo.arg() == 1000),
        interfaces.named(b"lo").is_none(),
    )
}

/// What is found of `echo` and `log` in that order.
fn found_of_both(alloc: Global) -> Result<Option<(usize, bool, bool, bool)>, Fail> {
    let entries = pair(alloc, entry(b"echo", echo())?, entry(b"log", log())?)?;
    Ok(match Interfaces::new(entries) {
        Some(interfaces) => Some(found(&interfaces)),
        None => None,
    })
}

#[test]
fn finds_by_name(rt: HostRuntime) -> Result<(), Fail> {
    assert_eq!(rt; found_of_both(rt.alloc())?, Some((2, true, true, true)));
    Ok(())
}

/// Whether there are interfaces with these two names in this order.
fn are_in_order(alloc: Global, first: &[u8], second: &[u8]) -> Result<bool, Fail> {
    let entries = pair(alloc, entry(first, log())?, entry(second, echo())?)?;
    Ok(Interfaces::new(entries).is_some())
}

#[test]
fn wants_names_in_order(rt: HostRuntime) -> Result<(), Fail> {
    let are_in_order = [
        are_in_order(rt.alloc(), b"echo", b"log")?,
        are_in_order(rt.alloc(), b"log", b"echo")?,
        are_in_order(rt.alloc(), b"log", b"log")?,
    ];
    assert_eq!(rt; are_in_order, [true, false, false]);
    Ok(())
}

/// Whether so many interfaces are taken.
fn are_taken(alloc: Global, count: u8) -> Result<bool, Fail> {
    Ok(Interfaces::new(many(alloc, count)?).is_some())
}

/// So many interfaces.
fn many(alloc: Global, count: u8) -> Result<Vec<(Name, Interface)>, Fail> {
    let mut entries = Vec::new(alloc);
    for i in 0..count {
        entries.push(entry(&[b'a' + i / 16, b'a' + i % 16], echo())?)?;
    }
    Ok(entries)
}

#[test]
fn takes_64(rt: HostRuntime) -> Result<(), Fail> {
    let are_taken = [are_taken(rt.alloc(), 64)?, are_taken(rt.alloc(), 65)?];
    assert_eq!(rt; are_taken, [true, false]);
    Ok(())
}
