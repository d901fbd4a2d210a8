// Programs as trees.
use gq_program::{Body, Form, Instruction, OperandSlot, Program, Section, Statement};
use std::alloc::{AllocError, Global};
use std::test::Fail;

/// No local has a limit.
const NO_LIMITS: [u32; 8] = [u32::MAX; 8];

/// Whether these sections are a program's.
fn is_program(sections: Vec<(Section, Body)>) -> bool {
    Program::new(sections, NO_LIMITS).is_some()
}

/// Whether there is a program with this statement in `main`.
fn is_with(alloc: Global, statement: Statement) -> Result<bool, AllocError> {
    let mut main = Body::new(alloc);
    main.push(statement)?;
    Ok(is_program(vec![in alloc; (Section::Main, main)]?))
}

#[test]
fn tests_operands(rt: HostRuntime) -> Result<(), Fail> {
    let free = |slot| Statement::Plain(Instruction::Free(OperandSlot::Own(slot)));
    let space = Instruction::Make(Form::Space, OperandSlot::Own(0), 0);
    let are_programs = [
        is_with(rt.alloc(), free(63))?,
        is_with(rt.alloc(), free(64))?,
        is_with(rt.alloc(), Statement::Plain(space))?,
    ];
    assert_eq!(rt; are_programs, [true, false, false]);
    Ok(())
}

/// A list of this statement alone.
fn only(alloc: Global, statement: Statement) -> Result<Body, AllocError> {
    let mut body = Body::new(alloc);
    match body.push(statement) {
        Ok(()) => Ok(body),
        Err(refused) => Err(refused),
    }
}

/// Whether there is a program with loops five deep in `main`.
fn is_five_deep(alloc: Global) -> Result<bool, AllocError> {
    let mut inner = Body::new(alloc);
    for depth in 1..5 {
        inner = only(alloc, Statement::Loop(depth, inner))?;
    }
    is_with(alloc, Statement::Loop(1, inner))
}

#[test]
fn tests_depth(rt: HostRuntime) -> Result<(), Fail> {
    let alloc = rt.alloc();
    let are_programs = [
        is_five_deep(alloc)?,
        is_with(alloc, Statement::Loop(1, Body::new(alloc)))?,
        is_with(alloc, Statement::Loop(0, Body::new(alloc)))?,
    ];
    assert_eq!(rt; are_programs, [false, true, false]);
    Ok(())
}

/// Whether there is a program with these sections, both empty.
fn are_sections(alloc: Global, first: Section, second: Section) -> Result<bool, AllocError> {
    let sections = vec![in alloc; (first, Body::new(alloc)), (second, Body::new(alloc))]?;
    Ok(is_program(sections))
}

#[test]
fn tests_the_order_of_sections(rt: HostRuntime) -> Result<(), Fail> {
    let are_programs = [
        are_sections(rt.alloc(), Section::Main, Section::Opening)?,
        are_sections(rt.alloc(), Section::Opening, Section::Main)?,
    ];
    assert_eq!(rt; are_programs, [true, false]);
    Ok(())
}
