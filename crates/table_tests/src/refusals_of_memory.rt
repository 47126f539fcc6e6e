//! The allocator that refuses one request, on which all tests of refused memory rest.
use fakes::Refusing;
use std::test::Fail;

#[test]
fn refuses_the_second_request(rt: HostRuntime) -> Result<(), Fail> {
    let memory = Refusing::new(rt.alloc(), 2);
    let mut first = Vec::new(&memory);
    let mut second = Vec::new(&memory);
    assert_eq!(rt; memory.requests(), 0);
    first.push(1u8)?;
    assert!(rt; !memory.has_refused());
    assert!(rt; second.push(2u8).is_err());
    assert!(rt; memory.has_refused());
    assert_eq!(rt; memory.requests(), 2);
    second.push(2)?;
    assert_eq!(rt; memory.requests(), 3);
    assert_eq!(rt; second.as_slice(), [2].as_slice());
    Ok(())
}
