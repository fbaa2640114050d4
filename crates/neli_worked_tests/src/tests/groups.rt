//! Lists of multicast groups and their masks, and bit arrays.

use super::support::{assert_is_at, assert_refused};
use neli::utils::{Groups, NetlinkBitArray};
use std::alloc::Global;
use std::process::Abort;

#[test]
fn lists_of_groups(rt: HostRuntime) {
    let alloc = rt.alloc();
    let highest = Groups::new_bitmask(alloc, 0x8000_0000).expect(&rt, "memory");
    let list = highest.into_groups();
    assert_is_at(&rt, "the highest bit", list.as_slice(), &[32u32]);
    let none = Groups::new_groups(alloc, &[0, 0, 0, 0]).expect(&rt, "memory");
    let mask = none.as_bitmask(alloc).expect(&rt, "a mask");
    assert_is_at(&rt, "zeros", (none.is_empty(), mask), (true, 0));
    let above = Groups::new_groups(alloc, &[33]).expect(&rt, "memory");
    let want = "Group 33 cannot be represented with a bit width of 32";
    assert_refused(&rt, alloc, "33", above.as_bitmask(alloc), want);
}

/// An array for so many numbers.
fn array(rt: &impl Abort, alloc: Global, bits: usize) -> NetlinkBitArray {
    NetlinkBitArray::new(alloc, bits).expect(rt, "memory")
}

/// The array with this number set, if there is room for it.
fn set(array: &mut NetlinkBitArray, number: usize) {
    if number <= array.len_bits() {
        array.set(number);
    }
}

/// Asserts which numbers are set.
fn assert_set(rt: &impl Abort, alloc: Global, array: &NetlinkBitArray, want: &[u32]) {
    let list = array.to_vec(alloc).expect(rt, "memory");
    assert_is_at(rt, "numbers", list.as_slice(), want);
}

#[test]
fn numbers_in_bit_arrays(rt: HostRuntime) {
    let alloc = rt.alloc();
    let mut small = array(&rt, alloc, 7);
    set(&mut small, 4);
    assert_set(&rt, alloc, &small, &[4]);
    assert_is_at(&rt, "7", (small.len(), small.len_bits()), (4, 32));
    let mut long = array(&rt, alloc, 96);
    for number in [4, 36, 68] {
        set(&mut long, number);
    }
    assert_set(&rt, alloc, &long, &[4, 36, 68]);
}

#[test]
fn bit_arrays_resized(rt: HostRuntime) {
    let alloc = rt.alloc();
    let mut long = array(&rt, alloc, 33);
    assert_is_at(&rt, "33 bits", long.len(), 8);
    for (bytes, length) in [(1, 4), (9, 12)] {
        long.resize(bytes).expect(&rt, "memory");
        assert_is_at(&rt, "bytes", long.len(), length);
    }
    let mut short = array(&rt, alloc, 32);
    assert_is_at(&rt, "32 bits", short.len(), 4);
    for (bits, length) in [(33, 8), (1, 4)] {
        short.resize_bits(bits).expect(&rt, "memory");
        assert_is_at(&rt, "bits", short.len(), length);
    }
}
