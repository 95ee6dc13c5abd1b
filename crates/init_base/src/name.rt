//! Property names, which are legal by their type. The rule is `LegalName` of `specs/Name.antt`.

ghost use Rattle.std.specs.Prelude.{◌≡◌, ◌≤◌, ◌↔◌, ◌&&◌, IfSome, IsSome};
ghost use Rattle.std.specs.List.{list_all};
ghost use Rattle.init_base.specs.Name.{LegalName, has_only_lone_dots, is_legal_name, is_name_byte, is_read_only, kind_of_byte};
ghost use Rattle.init_base.specs.Value.{max_value_len};

/// A property's name, which is legal: 1 to 255 bytes out of ASCII letters, digits and `. - _ @ :`, that doesn't
/// begin or end with a dot and has no two dots side by side (AOSP, system properties).
#[derive(Clone, Copy, Debug)]
pub struct PropName<'a> {
    pub bytes: &'a [u8],
    pub ghost legal: { LegalName bytes.now },
}

impl<'a> PropName<'a> {
    /// None exactly where the name isn't legal.
    pub fn of(bytes: &'a [u8]) -> Option<PropName<'a>>
        ensures bytes { IfSome result (λ name. name.bytes ≡ bytes.entry) }
        ensures exact { IsSome result ↔ LegalName bytes.entry.now }
    {
        if is_legal(bytes) {
            Some(PropName { bytes })
        } else {
            None
        }
    }

    /// The most bytes that a value under the name may have: 8,191 where it begins with `ro.`, else 91.
    pub fn max_value_len(&self) -> usize
        ensures { result ≡ max_value_len self.now.bytes.now }
    {
        if self.is_read_only() { 8191 } else { 91 }
    }

    /// Whether the name begins with `ro.`, so that its property is set once.
    pub fn is_read_only(&self) -> bool
        ensures { result ≡ is_read_only self.now.bytes.now }
    {
        self.bytes.starts_with(b"ro.")
    }

    pub fn bytes(&self) -> &'a [u8]
        ensures same { result ≡ self.now.bytes }
        ensures legal { LegalName result.now }
    {
        self.bytes
    }
}

fn is_legal(bytes: &[u8]) -> bool
    ensures { result ≡ is_legal_name bytes.now }
{
    bytes.len() <= 255 && has_legal_bytes(bytes)
}

/// The kind of the dot.
const DOT: u8 = 1;

/// The kind of the bytes that no name has.
const OTHER: u8 = 2;

/// The kind of each byte: 0 for those of names but the dot.
const KINDS: [u8; 256] = [
    2, 2, 2, 2, 2, 2, 2, 2, 2, 2, 2, 2, 2, 2, 2, 2, 2, 2, 2, 2, 2, 2, 2, 2, 2, 2, 2, 2, 2, 2, 2, 2,
    2, 2, 2, 2, 2, 2, 2, 2, 2, 2, 2, 2, 2, 0, 1, 2, 0, 0, 0, 0, 0, 0, 0, 0, 0, 0, 0, 2, 2, 2, 2, 2,
    0, 0, 0, 0, 0, 0, 0, 0, 0, 0, 0, 0, 0, 0, 0, 0, 0, 0, 0, 0, 0, 0, 0, 0, 0, 0, 0, 2, 2, 2, 2, 0,
    2, 0, 0, 0, 0, 0, 0, 0, 0, 0, 0, 0, 0, 0, 0, 0, 0, 0, 0, 0, 0, 0, 0, 0, 0, 0, 0, 2, 2, 2, 2, 2,
    2, 2, 2, 2, 2, 2, 2, 2, 2, 2, 2, 2, 2, 2, 2, 2, 2, 2, 2, 2, 2, 2, 2, 2, 2, 2, 2, 2, 2, 2, 2, 2,
    2, 2, 2, 2, 2, 2, 2, 2, 2, 2, 2, 2, 2, 2, 2, 2, 2, 2, 2, 2, 2, 2, 2, 2, 2, 2, 2, 2, 2, 2, 2, 2,
    2, 2, 2, 2, 2, 2, 2, 2, 2, 2, 2, 2, 2, 2, 2, 2, 2, 2, 2, 2, 2, 2, 2, 2, 2, 2, 2, 2, 2, 2, 2, 2,
    2, 2, 2, 2, 2, 2, 2, 2, 2, 2, 2, 2, 2, 2, 2, 2, 2, 2, 2, 2, 2, 2, 2, 2, 2, 2, 2, 2, 2, 2, 2, 2,
];

/// Whether all bytes are those of names, and no dot stands first, last or beside another. It goes over them once, with no
/// branch: two kinds side by side sum up to `OTHER` or more where no name has one of the bytes, or both are dots.
fn has_legal_bytes(bytes: &[u8]) -> bool
    ensures { result ≡ (list_all is_name_byte bytes.now && has_only_lone_dots bytes.now) }
{
    let mut seen = 0;
    let mut before = DOT;
    for byte in bytes {
        let kind = kind_of(*byte);
        seen |= before + kind;
        before = kind;
    }
    seen < OTHER && before != DOT
}

fn kind_of(byte: u8) -> u8
    ensures { result ≡ kind_of_byte byte }
{
    KINDS[byte as usize]
}
