use std::test::Fail;
use vh_files::{Files, SureFiles, SureSay, field16, field32, field64, say_all};

#[test]
fn fields_are_little_endian(rt: HostRuntime) {
    let bytes = [0, 0x01, 0x02, 0x03, 0x04, 0x05, 0x06, 0x07, 0x08];
    assert_eq!(rt; field16(&bytes, 1), 0x0201);
    assert_eq!(rt; field32(&bytes, 1), 0x0403_0201);
    assert_eq!(rt; field64(&bytes, 1), 0x0807_0605_0403_0201);
}

#[test]
fn a_sure_store_drops_what_is_written(rt: HostRuntime) -> Result<(), Fail> {
    let alloc = rt.alloc();
    let mut files = SureFiles::new(alloc)?;
    files.put(alloc, "a", Vec::from_slice(alloc, b"abc")?)?;
    assert_eq!(rt; files.size("a"), Ok(3));
    assert_eq!(rt; files.append("a", b"xyz"), Ok(3));
    assert_eq!(rt; files.get("a"), None);
    let mut say = SureSay::new();
    assert_eq!(rt; say_all(&mut say, b"text"), Ok(()));
    Ok(())
}
