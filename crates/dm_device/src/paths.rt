// The path that requests go to.
ghost use Rattle.std.specs.Prelude.{◌≡◌, option_map};
ghost use Rattle.std.specs.List.{list_all};
ghost use Rattle.dm_device.specs.Paths as Spec;

const MOST_BYTES: usize = 1_024;

// From 21 to 7E in hex.
fn is_plain_byte(byte: u8) -> bool
    ensures { result ≡ Spec.is_plain_byte byte }
{
    33 <= byte && byte <= 126
}

fn are_plain(bytes: &[u8]) -> bool
    ensures { result ≡ list_all Spec.is_plain_byte bytes.now }
{
    bytes.iter().all(|byte| is_plain_byte(*byte))
}

fn is_plain_uri(uri: &[u8]) -> bool
    ensures { result ≡ Spec.is_plain_uri uri.now }
{
    uri.len() <= MOST_BYTES && are_plain(uri)
}

// From the first slash on.
fn from_slash(bytes: &[u8]) -> Option<&[u8]>
    ensures { option_map (λ path. path.now) result ≡ Spec.from_slash bytes.now }
{
    let mut rest = bytes;
    'bytes: while let [first, behind @ ..] = rest {
        if *first == b'/' {
            return Some(rest);
        }
        rest = behind;
    }
    None
}

// The path in a RespURI: itself where it begins with a slash, else what stands behind the authority.
fn path_in(uri: &[u8]) -> Option<&[u8]>
    ensures { option_map (λ path. path.now) result ≡ Spec.path_in_uri uri.now }
{
    if uri.starts_with(b"/") {
        Some(uri)
    } else if uri.starts_with(b"http://") {
        from_slash(&uri[7..])
    } else if uri.starts_with(b"https://") {
        from_slash(&uri[8..])
    } else {
        None
    }
}

fn path_told(uri: &[u8]) -> Option<&[u8]>
    ensures { option_map (λ path. path.now) result ≡ Spec.path_told uri.now }
{
    if is_plain_uri(uri) {
        path_in(uri)
    } else {
        None
    }
}

/// The path that a RespURI gives, or else the one of the run.
pub(crate) fn path_of<'a>(uri: Option<&'a [u8]>, path: &'a [u8]) -> &'a [u8]
    ensures { result.now ≡ Spec.request_path (option_map (λ uri. uri.now) uri.entry) path.now }
{
    match uri {
        None => path,
        Some(uri) => match path_told(uri) {
            None => path,
            Some(told) => told,
        },
    }
}
