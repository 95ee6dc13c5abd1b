//! The fields of form one: a text in so many bytes, of which the last one counts as zero.

ghost use Rattle.std.specs.Prelude.{◌≡◌, ◌+◌, ◌-◌, ◌<◌, ◌≤◌, ◌++◌, length, take, replicate, position, OnOk};
ghost use Rattle.wire_format.specs.Format.{field_text, fits_field, is_zero, padded};

use init_base::NoMemory;

/// The bytes before the first zero of a field.
#[tactic(auto, using(crate::proofs::Fields::before_some, crate::proofs::Fields::before_none))]
pub(crate) fn field_text(field: &[u8]) -> &[u8]
    requires { 0 < length field.now }
    ensures { result.now ≡ field_text field.entry.now }
{
    let text = &field[..field.len() - 1];
    match zero_place(text) {
        Some(end) => &text[..end],
        None => text,
    }
}

/// The place of the first zero.
fn zero_place(bytes: &[u8]) -> Option<usize>
    ensures { result ≡ position is_zero bytes.now }
{
    bytes.iter().position(|byte| *byte == 0)
}

/// Whether a text fits a field of so many bytes.
pub(crate) fn fits_field(text: &[u8], size: usize) -> bool
    ensures { result ≡ fits_field size text.now }
{
    text.len() < size && !text.contains(&0)
}

/// Adds a text, and zeros up to the size of its field.
pub(crate) fn put_field(bytes: &mut Vec<u8>, text: &[u8], size: usize) -> Result<(), NoMemory>
    requires fits { length text.now ≤ size }
    requires small { size ≤ 92 }
    ensures { OnOk result (bytes.new.items ≡ bytes.old.items ++ padded size text.now) }
{
    bytes.extend_from_slice(text)?;
    bytes.resize(bytes.len() + (size - text.len()), 0)?;
    Ok(())
}
