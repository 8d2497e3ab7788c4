// What the ends show, and what it comes to.
ghost use Rattle.std.specs.Prelude.{◌≡◌, ◌&&◌, List, ℕ, length, take, bytes_eq, codes, IfOk, option_map};
ghost use Rattle.dm_auth.specs.Digests.{base64_of, digest_of, is_this, is_this_or_none, is_md5_meta, verdict, md5_meta};
ghost use Rattle.dm_auth.specs.Digests.{credential, challenge};

use base64::engine::general_purpose::STANDARD;
use dm_base::{Boxed, Bytes, Memory, Nonce};
use md5::{Digest, Md5};
use std::alloc::Global;
use syncml_types::{Cred, Meta};

const MD5_TYPE: &[u8] = b"syncml:auth-md5";

const BASE64_FORMAT: &[u8] = b"b64";

/// What a credential comes to.
#[derive(Clone, Copy, Debug, PartialEq, Eq)]
pub enum Verdict {
    /// There is none.
    Missing,
    /// Its Type is `syncml:auth-md5`, its Format absent or `b64`, and its Data the base64 text of the digest.
    Accepted,
    /// All else.
    Wrong,
}

// The base64 text of sixteen bytes.
fn text_of(bytes: &[u8; 16]) -> [u8; 24]
    ensures { result ≡ base64_of bytes.now }
{
    let mut text = [0u8; 24];
    let _ = STANDARD.encode_slice(bytes, &mut text);
    text
}

/// The MD5 digest of a user, a password and a nonce: of the base64 text of the digest of `user:password`, a colon and
/// the nonce. It takes no memory.
pub fn digest(user: &[u8], password: &[u8], nonce: &[u8]) -> [u8; 16]
    ensures { result ≡ digest_of user.now password.now nonce.now }
{
    let mut secret = Md5::new();
    secret.update(user);
    secret.update(b":");
    secret.update(password);
    let secret = text_of(&secret.finalize());
    let mut whole = Md5::new();
    whole.update(&secret);
    whole.update(b":");
    whole.update(nonce);
    whole.finalize()
}

// Whether two texts are the same. All bytes up to the end of the shorter are looked at, whatever they are.
fn is_same(text: &[u8], right: &[u8]) -> bool
    ensures { result ≡ bytes_eq text.now right.now }
{
    match text {
        [] => right.is_empty(),
        [first, text @ ..] => match right {
            [] => false,
            [other, right @ ..] => {
                let rest = is_same(text, right);
                (*first == *other) & rest
            }
        },
    }
}

fn is_this(wanted: &[u8], text: &Option<Bytes>) -> bool
    ensures { result ≡ is_this wanted.now text.now }
{
    match text {
        None => false,
        Some(text) => text.as_slice() == wanted,
    }
}

fn is_md5_meta(meta: &Option<Boxed<Meta>>) -> bool
    ensures { result ≡ is_md5_meta meta.now }
{
    match meta {
        None => false,
        Some(meta) => {
            is_this(MD5_TYPE, &meta.inner.media)
                && (meta.inner.format.is_none() || is_this(BASE64_FORMAT, &meta.inner.format))
        }
    }
}

/// What a credential comes to, for the side with this user, password and nonce. It takes no memory.
pub fn judge(user: &[u8], password: &[u8], nonce: &[u8], cred: Option<&Cred>) -> Verdict
    ensures { result ≡ verdict user.now password.now nonce.now (option_map (λ c. c.now) cred.entry) }
{
    let Some(cred) = cred else {
        return Verdict::Missing;
    };
    let right = text_of(&digest(user, password, nonce));
    if is_md5_meta(&cred.meta) && is_same(cred.value.as_slice(), &right) {
        Verdict::Accepted
    } else {
        Verdict::Wrong
    }
}

fn md5_meta(alloc: Global, next_nonce: Option<Bytes>) -> Result<Meta, Memory>
    ensures { IfOk result (λ meta. meta ≡ md5_meta next_nonce) }
{
    Ok(Meta {
        format: Some(Bytes::of_slice(alloc, BASE64_FORMAT)?),
        media: Some(Bytes::of_slice(alloc, MD5_TYPE)?),
        next_nonce,
        ..Meta::empty()
    })
}

/// The credential of the side with this user, password and nonce.
pub fn credential(alloc: Global, user: &[u8], password: &[u8], nonce: &[u8]) -> Result<Cred, Memory>
    ensures { IfOk result (λ cred. cred ≡ credential user.now password.now nonce.now) }
{
    let meta = md5_meta(alloc, None)?;
    let value = Bytes::of_slice(alloc, &text_of(&digest(user, password, nonce)))?;
    Ok(Cred {
        meta: Some(Boxed::new(alloc, meta)?),
        value,
    })
}

/// What asks the other side for a credential with this nonce.
pub fn challenge(alloc: Global, nonce: &Nonce) -> Result<Meta, Memory>
    ensures { IfOk result (λ meta. meta ≡ challenge nonce.now.bytes) }
{
    let text = Bytes::of_slice(alloc, &text_of(&nonce.bytes))?;
    md5_meta(alloc, Some(text))
}
