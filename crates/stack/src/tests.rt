//! A full and an empty stack, and a stack on places behind others.
use crate::Stack;
use crate::cutting::cut_at;
use std::test::Fail;

#[test]
fn full_and_empty_stack(rt: HostRuntime) -> Result<(), Fail> {
    let mut places = [10, 20, 30, 40];
    let (first, second) = places.split_at_mut(2);
    let mut stack = Stack::new(second);
    assert_eq!(rt; stack.pop(), None);
    stack.push(1)?;
    stack.push(2)?;
    assert!(rt; stack.push(3).is_err());
    assert!(rt; stack.depth() == 2);
    assert_eq!(rt; first.get(1).copied(), Some(20));
    assert_eq!(rt; first.get(2).copied(), None);
    assert_eq!(rt; stack.pop(), Some(2));
    assert_eq!(rt; stack.pop(), Some(1));
    assert_eq!(rt; stack.pop(), None);
    Ok(())
}

#[test]
fn stack_from_a_base_on(rt: HostRuntime) -> Result<(), Fail> {
    let mut places = [10, 20, 30, 40];
    let (before, above) = cut_at(&mut places, 3);
    let mut stack = Stack::new(above);
    stack.push(1)?;
    assert!(rt; stack.push(2).is_err());
    assert_eq!(rt; before.get(2).copied(), Some(30));
    assert_eq!(rt; before.get(3).copied(), None);
    Ok(())
}

#[test]
fn base_past_the_end(rt: HostRuntime) {
    let mut places = [10, 20, 30, 40];
    let (before, above) = cut_at(&mut places, 5);
    let mut stack = Stack::new(above);
    assert!(rt; stack.push(1).is_err());
    assert!(rt; before.len() == 4);
}
