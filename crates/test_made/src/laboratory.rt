//! The object of the laboratory.

use pm_gen::lab_object;
use pm_object::encode;
use std::test::Fail;

/// The bytes of `examples/laboratory.obj`.
static LABORATORY: [u8; 160] = [
    2, 0, 0, 0, 4, 0, 0, 0, 1, 0, 0, 0, 1, 1, 0, 0, //
    2, 0, 0, 0, 1, 0, 0, 0, 1, 0, 0, 0, 100, 0, 0, 0, //
    0, 1, 0, 0, 0, 1, 0, 0, 7, 0, 0, 0, 0, 1, 0, 0, //
    100, 0, 0, 0, 0, 0, 0, 0, 0, 0, 0, 0, 2, 1, 0, 0, //
    5, 0, 0, 0, 11, 0, 0, 0, 1, 0, 0, 0, 1, 1, 0, 0, //
    28, 0, 0, 0, 0, 0, 0, 0, 1, 1, 0, 0, 33, 0, 0, 0, //
    0, 0, 0, 0, 1, 0, 0, 0, 39, 0, 0, 0, 0, 0, 0, 0, //
    1, 1, 0, 0, 46, 0, 0, 0, 1, 0, 0, 0, 1, 1, 0, 0, //
    4, 1, 0, 0, 1, 0, 0, 0, 10, 0, 0, 0, 0, 1, 0, 0, //
    5, 1, 0, 0, 1, 0, 0, 0, 33, 0, 0, 0, 1, 0, 0, 0, //
];

#[test]
fn the_object_is_that_of_the_laboratory(rt: HostRuntime) -> Result<(), Fail> {
    let object = lab_object(rt.alloc())?;
    let bytes = encode(rt.alloc(), &object)?;
    assert_eq!(rt; bytes.as_slice(), &LABORATORY[..]);
    Ok(())
}
