//! One forward pass over bytes.

use implib::coff::Pass;
use std::test::Fail;

#[test]
fn what_is_put_comes_out_in_order(rt: HostRuntime) -> Result<(), Fail> {
    let mut pass = Pass::reserve(rt.alloc(), 9)?;
    assert_eq!(rt; pass.left(), 9);
    pass.put_u16(0x0201);
    assert_eq!(rt; pass.left(), 7);
    pass.put_bytes(b"abc");
    assert_eq!(rt; pass.left(), 4);
    pass.put_u32(0x0605_0403);
    assert_eq!(rt; pass.left(), 0);
    assert_eq!(rt;
        pass.finish().as_slice(),
        b"\x01\x02abc\x03\x04\x05\x06".as_slice()
    );
    Ok(())
}
