//! Lists from an input are read whole, where memory is left: what no clause says.
//! Rests on the toolchain's `std::test`; each number asked for stands in the input.
use super::*;
use std::test::Fail;

/// Three numbers, one too large for its type, then a byte that is no part of them.
const INPUT: &[u8] = b"3 4294967296,7\n!";

#[test]
fn a_list_behind_a_buffer(rt: HostRuntime) -> Result<(), Fail> {
    let mut input = Numbers::new(rt.alloc(), INPUT)?;
    let list = input.list(3, u32::MAX)?;
    assert_eq!(rt; list.as_slice(), [3, u32::MAX, 7].as_slice());
    assert_eq!(rt; input.byte(), b'!');
    Ok(())
}

#[test]
fn an_array_without_a_buffer(rt: HostRuntime) {
    let mut input = Numbers::unbuffered(INPUT);
    let array = input.array::<u32, 3>(3, u32::MAX);
    assert_eq!(rt; array.as_slice(), [3, u32::MAX, 7].as_slice());
    assert_eq!(rt; input.byte(), b'!');
}
