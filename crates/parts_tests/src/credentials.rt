// Digests of the standard's example, and what credentials come to.
use dm_auth::{Verdict, challenge, credential, digest, judge, nonce_of};
use dm_base::{Bytes, Nonce};
use std::test::Fail;

const USER: &[u8] = b"Bruce2";

const PASSWORD: &[u8] = b"OhBehave";

// The expected bytes are those of the standard's example, and of another program's MD5 and base64.
#[test]
fn digests_are_the_standards(rt: HostRuntime) -> Result<(), Fail> {
    let with_nonce = digest(USER, PASSWORD, b"Nonce");
    assert_eq!(rt;
        with_nonce.as_slice(),
        b"\x67\x3e\x84\x8a\xf4\x77\xc9\xe6\x9a\x10\xd7\x11\x37\xa9\x69\x01".as_slice()
    );
    let without = digest(USER, PASSWORD, b"");
    assert_eq!(rt;
        without.as_slice(),
        b"\x94\x47\xf6\xe6\x3c\xa3\x1d\xb0\x9c\x4d\xb8\xf8\xa7\xfd\x69\x53".as_slice()
    );
    Ok(())
}

#[test]
fn credentials_are_judged(rt: HostRuntime) -> Result<(), Fail> {
    assert_eq!(rt; judge(USER, PASSWORD, b"Nonce", None), Verdict::Missing);
    let own = credential(rt.alloc(), USER, PASSWORD, b"")?;
    assert_eq!(rt;
        own.value.as_slice(),
        b"lEf25jyjHbCcTbj4p/1pUw==".as_slice()
    );
    assert_eq!(rt; judge(USER, PASSWORD, b"", Some(&own)), Verdict::Accepted);
    Ok(())
}

#[test]
fn nonces_are_told_and_read(rt: HostRuntime) -> Result<(), Fail> {
    let nonce = Nonce {
        bytes: [0, 1, 2, 3, 4, 5, 6, 7, 8, 9, 10, 11, 12, 13, 14, 15],
    };
    let asked = challenge(rt.alloc(), &nonce)?;
    let text = asked
        .next_nonce
        .as_ref()
        .map_or(b"".as_slice(), Bytes::as_slice);
    assert_eq!(rt; text, b"AAECAwQFBgcICQoLDA0ODw==".as_slice());
    let read = nonce_of(rt.alloc(), text)?;
    assert_eq!(rt;
        read.as_ref().map_or(b"".as_slice(), Bytes::as_slice),
        nonce.bytes.as_slice()
    );
    assert_eq!(rt;
        nonce_of(rt.alloc(), b"")?.map_or(9, |bytes| bytes.len()),
        0
    );
    assert_eq!(rt;
        nonce_of(rt.alloc(), b"AAECAwQFBgcICQoLDA0ODw")?.is_none(),
        true
    );
    assert_eq!(rt;
        nonce_of(rt.alloc(), b"AAECAwQFBgcICQoLDA0ODx==")?.is_none(),
        true
    );
    Ok(())
}
