//! What other crates ask of the second runner's tree, called by itself.

use dice_tree::calm::has_wildcard;
use std::test::Fail;

#[test]
fn wildcards(rt: HostRuntime) -> Result<(), Fail> {
    for byte in 0..=255u8 {
        let expected = byte == 42 || byte == 63;
        assert_eq!(rt; has_wildcard(&[byte]), expected);
        assert_eq!(rt; has_wildcard(&[b'a', byte, b'z']), expected);
    }
    assert!(rt; !has_wildcard(b""));
    assert!(rt; has_wildcard(b"*.log"));
    assert!(rt; has_wildcard(b"hut-?"));
    assert!(rt; !has_wildcard(b"hut-[0-9]"));
    Ok(())
}
