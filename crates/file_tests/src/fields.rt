use crate::checks::same;
use binary_format::{Reader, put_u32, put_u64};

#[test]
fn numbers_are_written_low_byte_first(rt: HostRuntime) {
    let mut out = Vec::new(rt.alloc());
    put_u32(&mut out, 0x0403_0201).expect(&rt, "memory");
    put_u64(&mut out, 7).expect(&rt, "memory");
    same(&rt, out.as_slice(), BYTES.as_slice());
}

static BYTES: [u8; 12] = [1, 2, 3, 4, 7, 0, 0, 0, 0, 0, 0, 0];

#[test]
fn numbers_are_read_as_they_were_put(rt: HostRuntime) {
    let mut file = Reader::new(&BYTES);
    same(&rt, file.u32(), Some(0x0403_0201));
    same(&rt, file.offset(), 4);
    same(&rt, file.u64(), Some(7));
    same(&rt, file.u32(), None);
    assert!(rt; file.is_empty());
}
