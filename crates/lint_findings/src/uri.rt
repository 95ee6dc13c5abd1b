//! Paths as URI references.

ghost use Rattle.std.specs.Prelude.{◌≡◌, ◌++◌, IfOk, OnOk};
ghost use Rattle.std.specs.List.{flat_map};
ghost use Rattle.lint_findings.specs.Uri.{uri_byte};
ghost use Rattle.lint_findings.specs.Uri as spec;

use init_base::NoMemory;
use init_trace::{put_byte, put_hex_byte};
use std::alloc::Global;

/// Whether a byte of a path stands for itself: what RFC 3986 leaves unreserved, and the slash.
fn is_plain(byte: u8) -> bool
    ensures { result ≡ spec.is_plain byte }
{
    byte.is_ascii_alphanumeric() || matches!(byte, b'-' | b'.' | b'_' | b'~' | b'/')
}

fn put_path_byte(uri: &mut Vec<u8>, byte: u8) -> Result<(), NoMemory>
    ensures { OnOk result (uri.new.items ≡ uri.old.items ++ uri_byte byte) }
{
    if is_plain(byte) {
        put_byte(uri, byte)
    } else {
        put_byte(uri, b'%')?;
        put_hex_byte(uri, byte, true)
    }
}

/// Adds a path.
pub fn put_path(uri: &mut Vec<u8>, path: &[u8]) -> Result<(), NoMemory>
    ensures { OnOk result (uri.new.items ≡ uri.old.items ++ flat_map uri_byte path.now) }
{
    for byte in path {
        put_path_byte(uri, *byte)?;
    }
    Ok(())
}

fn without_slash(path: &[u8]) -> &[u8]
    ensures { result.now ≡ spec.without_slash path.entry.now }
{
    match path {
        [b'/', behind @ ..] => behind,
        _ => path,
    }
}

/// The path of a file behind a root. Where there is no root it is told from there on, without the slash that begins it.
pub fn uri_of(alloc: Global, root: &[u8], file: &[u8]) -> Result<Vec<u8>, NoMemory>
    ensures { IfOk result (λ uri. uri.items ≡ spec.uri_of root.now file.now) }
{
    let mut uri = Vec::new(alloc);
    match root {
        [] => put_path(&mut uri, without_slash(file))?,
        _ => {
            put_path(&mut uri, root)?;
            put_path(&mut uri, file)?;
        }
    }
    Ok(uri)
}
