//! The nodes that a name needs: one for each of its dotted prefixes that isn't known yet. Each takes words by its part
//! (`node_words` of `init_machine`'s `specs/Words.antt`).

ghost use Rattle.std.specs.Prelude.{◌≡◌, ◌+◌, ◌*◌, ◌/◌, ◌≤◌, ◌++◌, length, if◌then◌else◌};
ghost use Rattle.std.specs.Str.{bytes_eq};
ghost use Rattle.indexmap.specs.IndexSet.{insert_key, spare};
ghost use Rattle.init_machine.specs.internal.Nodes.{SameMembers, words_beyond};
ghost use Rattle.init_machine.specs.Words.{is_among, last_part_from, node_words, prefixes_of};

use crate::name::Name;
use indexmap::IndexSet;

/// The words of a node beside those of its part.
const NODE_WORDS: u64 = 5;

/// The words of the nodes that the name needs beyond the known ones.
pub fn words_of_new(known: &IndexSet<Name>, name: &[u8]) -> u64
    requires { length name.now ≤ 255 }
    ensures words { result ≡ words_beyond known.now.keys (prefixes_of name.now) }
    ensures fits { result ≤ 9472 }
{
    let mut words = 0;
    let mut part_len = 0;
    for at in 0..name.len() {
        if name[at] == b'.' {
            words += words_if_new(known, &name[..at], part_len);
            part_len = 0;
        } else {
            part_len += 1;
        }
    }
    words + words_if_new(known, name, part_len)
}

/// The words of the prefix's node, or none where it is known.
fn words_if_new(known: &IndexSet<Name>, prefix: &[u8], part_len: usize) -> u64
    requires short { length prefix.now ≤ 255 }
    requires part { part_len ≡ last_part_from 0 prefix.now }
    requires within { part_len ≤ length prefix.now }
    ensures words { result ≡ (if is_among known.now.keys prefix.now then 0 else node_words prefix.now) }
    ensures fits { result ≤ 37 }
{
    if known.contains(&Name::new(prefix)) {
        0
    } else {
        words_of_node(part_len)
    }
}

/// The words of a node of a part of so many bytes.
fn words_of_node(part_len: usize) -> u64
    requires { part_len ≤ 255 }
    ensures words { result ≡ 5 + (part_len + 7) / 8 }
    ensures fits { result ≤ 37 }
{
    NODE_WORDS + (part_len as u64).div_ceil(8)
}

/// Makes the name's dotted prefixes known, where there is memory for them, and answers the words of those that are new.
pub fn add(known: &mut IndexSet<Name>, name: &[u8]) -> u64
    requires short { length name.now ≤ 255 }
    requires spare { 256 ≤ spare known.old }
    ensures words { result ≡ words_beyond known.old.keys (prefixes_of name.now) }
    ensures members { SameMembers known.new.keys (prefixes_of name.now ++ known.old.keys) }
    ensures fits { result ≤ 9472 }
{
    let mut words = 0;
    let mut part_len = 0;
    for at in 0..name.len() {
        if name[at] == b'.' {
            words += add_prefix(known, &name[..at], part_len);
            part_len = 0;
        } else {
            part_len += 1;
        }
    }
    words + add_prefix(known, name, part_len)
}

/// Makes a prefix known, where there is memory for it, and answers the words of its node, or none where it was known.
fn add_prefix(known: &mut IndexSet<Name>, prefix: &[u8], part_len: usize) -> u64
    requires short { length prefix.now ≤ 255 }
    requires spare { 1 ≤ spare known.old }
    requires part { part_len ≡ last_part_from 0 prefix.now }
    requires within { part_len ≤ length prefix.now }
    ensures words { result ≡ (if is_among known.old.keys prefix.now then 0 else node_words prefix.now) }
    ensures keys { known.new.keys ≡ insert_key bytes_eq known.old.keys prefix.now }
    ensures spare { spare known.old ≤ spare known.new + 1 }
    ensures fits { result ≤ 37 }
{
    match known.insert(Name::new(prefix)) {
        Ok(true) => words_of_node(part_len),
        Ok(false) => 0,
        Err(_) => unreachable!(),
    }
}
