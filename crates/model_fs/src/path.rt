//! Texts of paths, by their parts: what stands between slashes, where empty parts are dropped.

ghost use Rattle.std.specs.Prelude.{◌≡◌, ◌≢◌, ◌-◌, ◌<◌, ◌≤◌, ◌++◌, ◌∷◌, [], true, length, take, drop, slice_index, MatchOption};
ghost use Rattle.std.specs.List.{list_any, list_all};
ghost use Rattle.init_machine.specs.FileTree.{parts_of};
ghost use Rattle.init_machine.specs.FileTree as spec;
ghost use Rattle.model_fs.specs.internal.Paths.{is_no_slash};

/// The length of the longest text of a path.
const MAX_LEN: usize = 4096;

/// Whether the text is that of a path.
pub fn is_path(text: &[u8]) -> bool
    ensures { result ≡ spec.is_path text.now }
{
    begins_with_slash(text) && text.len() <= MAX_LEN && !text.contains(&0) && !has_dots(text)
}

/// Whether the text is that of a path. Where its front is known to be one, only the rest is read.
pub fn is_path_behind(text: &[u8], front: &[u8], part: &[u8], is_front_known: bool) -> bool
    requires cut { parts_of text.now ≡ parts_of front.now ++ part.now ∷ [] }
    requires front { front.now ≡ take (length front.now) text.now }
    requires within { length front.now ≤ length text.now }
    requires known { is_front_known ≡ true → spec.is_path front.now ≡ true }
    ensures { result ≡ spec.is_path text.now }
{
    if !is_front_known {
        return is_path(text);
    }
    if text.len() > MAX_LEN {
        return false;
    }
    if text[front.len()..].contains(&0) {
        return false;
    }
    !is_dots(part)
}

fn begins_with_slash(text: &[u8]) -> bool
    ensures { result ≡ spec.begins_with_slash text.now }
{
    match text {
        [first, ..] => *first == b'/',
        [] => false,
    }
}

/// Whether a part is `.` or `..`.
fn has_dots(text: &[u8]) -> bool
    ensures { result ≡ list_any spec.is_dots (parts_of text.now) }
{
    if !text.contains(&b'.') {
        return false;
    }
    has_dots_part(text)
}

/// Whether a part is `.` or `..`, by a look at each.
fn has_dots_part(text: &[u8]) -> bool
    ensures { result ≡ list_any spec.is_dots (parts_of text.now) }
{
    match split_last(text) {
        Some((front, part)) => has_dots_part(front) || is_dots(part),
        None => false,
    }
}

fn is_dots(part: &[u8]) -> bool
    ensures { result ≡ spec.is_dots part.now }
{
    part == b".".as_slice() || part == b"..".as_slice()
}

/// Whether the text has no part.
pub fn is_root(text: &[u8]) -> bool
    ensures { result ≡ spec.is_root (parts_of text.now) }
{
    split_last(text).is_none()
}

/// The front of a text with the parts before the last one, and the last one. None exactly where there is no part.
pub fn split_last(text: &[u8]) -> Option<(&[u8], &[u8])>
    ensures { MatchOption result (parts_of text.now ≡ []) (λ cut. (parts_of text.now ≡ parts_of cut.0.now ++ cut.1.now ∷ [])
        × (length cut.0.now < length text.now) × (cut.0.now ≡ take (length cut.0.now) text.now)) }
{
    let text = &text[..trimmed_len(text)];
    if text.is_empty() {
        return None;
    }
    let start = last_start(text);
    Some((&text[..start], &text[start..]))
}

/// The length without the slashes at the end.
fn trimmed_len(text: &[u8]) -> usize
    ensures bound { result ≤ length text.now }
    ensures same { parts_of (take result text.now) ≡ parts_of text.now }
    ensures last { 0 < result → slice_index text.now (result - 1) ≢ 47 }
{
    let mut len = text.len();
    while len > 0 && text[len - 1] == b'/' {
        len -= 1;
    }
    len
}

/// Where what stands behind the last slash begins.
fn last_start(text: &[u8]) -> usize
    ensures bound { result ≤ length text.now }
    ensures part { list_all is_no_slash (drop result text.now) ≡ true }
    ensures slash { 0 < result → slice_index text.now (result - 1) ≡ 47 }
{
    let mut start = text.len();
    while start > 0 && text[start - 1] != b'/' {
        start -= 1;
    }
    start
}

/// The first part of a text, and what stands behind it. None exactly where there is no part.
pub fn split_first(text: &[u8]) -> Option<(&[u8], &[u8])>
    ensures { MatchOption result (parts_of text.now ≡ [])
        (λ cut. (parts_of text.now ≡ cut.0.now ∷ parts_of cut.1.now) × (length cut.1.now < length text.now)) }
{
    let text = &text[first_start(text)..];
    if text.is_empty() {
        return None;
    }
    let len = part_len(text);
    Some((&text[..len], &text[len..]))
}

/// Where what stands behind the slashes at the front begins.
fn first_start(text: &[u8]) -> usize
    ensures bound { result ≤ length text.now }
    ensures same { parts_of (drop result text.now) ≡ parts_of text.now }
    ensures first { result < length text.now → slice_index text.now result ≢ 47 }
{
    let mut start = 0;
    while start < text.len() && text[start] == b'/' {
        start += 1;
    }
    start
}

/// How many bytes stand before the first slash.
fn part_len(text: &[u8]) -> usize
    ensures bound { result ≤ length text.now }
    ensures part { list_all is_no_slash (take result text.now) ≡ true }
    ensures slash { result < length text.now → slice_index text.now result ≡ 47 }
{
    let mut len = 0;
    while len < text.len() && text[len] != b'/' {
        len += 1;
    }
    len
}
