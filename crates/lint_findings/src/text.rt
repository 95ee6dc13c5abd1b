//! Text that joins the end of a page.

ghost use Rattle.std.specs.Prelude.{◌≡◌, ◌++◌, OnOk};
ghost use Rattle.lint_findings.specs.Gcc as spec;

use init_base::NoMemory;

fn shown_byte(byte: u8) -> u8
    ensures { result ≡ spec.shown_byte byte }
{
    if byte < 32 || byte == 127 { b'?' } else { byte }
}

/// Adds a text, in which control bytes are shown as `?`.
pub fn put_shown(page: &mut Vec<u8>, bytes: &[u8]) -> Result<(), NoMemory>
    ensures { OnOk result (page.new.items ≡ page.old.items ++ spec.shown bytes.now) }
{
    for byte in bytes {
        page.push(shown_byte(*byte))?;
    }
    Ok(())
}
