//! Contexts by the names of their lines, and the longest line for a front of a name.
//!
//! One walk over a name makes the digests of its fronts, so that a long name isn't hashed at each of its lengths. It ends where
//! no line's name is longer. A front whose digest is none of the lines' has no line; else the digest stands at the place of a
//! line, which is looked at before any other.

ghost use Rattle.std.specs.Prelude.{◌≡◌, ◌++◌, ◌∷◌, [], ◌||◌, ℕ, List, filter, fold, if◌then◌else◌, is_some, not, IsTrue, IfOk, OnOk, OnErr};
ghost use Rattle.std.specs.Option.{option_copied, option_map};
ghost use Rattle.std.specs.Str.{bytes_eq};
ghost use Rattle.init_machine.specs.Policy.{is_prefix_for, longest};
ghost use Rattle.prop_contexts.specs.NameLines.{context_in, has_name, lines_in, named};
ghost use Rattle.prop_contexts.specs.Digests as spec;
ghost use Rattle.prop_contexts.specs.Walks.{IsWalked};

use crate::digest_set::DigestSet;
use crate::name_lengths::NameLengths;
use collections::{Spelled, TextKey};
use indexmap::IndexMap;
use init_base::{NoMemory, same_bytes};
use init_machine::Context;
use std::alloc::Global;
use std::marker::Model;

/// The contexts of lines by their names, in the order of the lines.
#[derive(Drop)]
pub struct Names {
    contexts: IndexMap<TextKey, Context>,
    /// The digests of the names. That of a name stands at the place of its line, while no two names have one digest.
    digests: DigestSet,
    lengths: NameLengths,
}

impl Model for Names {
    ghost use Rattle.std.specs.Prelude.{List};
    ghost use Rattle.init_machine.specs.Policy.{ContextLine};
    ghost use Rattle.prop_contexts.specs.NameLines.{lines_in};
    ghost use Rattle.prop_contexts.specs.Digests.{HaveDigests};
    ghost use Rattle.prop_contexts.specs.Lengths.{HaveLengths};

    ghost Value = { List ContextLine };

    ghost view = { λ n. lines_in n.contexts };

    ghost invariant = { λ n. HaveDigests (lines_in n.contexts) n.digests × HaveLengths (lines_in n.contexts) n.lengths };
}

/// How many bytes of a name a line may be for, and where their digest stands, if it does.
#[derive(Clone, Copy)]
pub struct Front {
    pub len: usize,
    pub place: Option<usize>,
}

/// What a walk over a name tells of it.
#[derive(Clone, Copy)]
pub struct Walked<'a> {
    pub name: &'a [u8],
    /// The digest of the bytes before the rest.
    pub digest: u64,
    /// The bytes behind those that were walked over.
    pub rest: &'a [u8],
    /// The longest front that a line may be for.
    pub front: Front,
}

impl Names {
    pub fn new(alloc: Global) -> Names
        ensures { result ≡ [] }
    {
        Names {
            contexts: IndexMap::new(alloc),
            digests: DigestSet::new(alloc),
            lengths: NameLengths::new(),
        }
    }

    /// Puts a context at a name. False where the name has one, which goes.
    pub fn put(&mut self, name: Vec<u8>, context: Context) -> Result<bool, NoMemory>
        ensures fresh { IfOk result (λ fresh. fresh ≡ not (has_name self.old name.items)) }
        ensures added { IfOk result (λ fresh. IsTrue fresh → self.new ≡ self.old ++ named name.items context ∷ []) }
    {
        self.digests.insert(digest_of(name.as_slice()))?;
        self.lengths.add(name.as_slice().len());
        put(&mut self.contexts, name, context)
    }

    /// The context of the line for a name of which a walk has this digest and this rest. It takes no memory.
    pub fn get(&self, name: &[u8], digest: u64, rest: &[u8]) -> Option<&Context>
        requires { fold spec.with_byte digest rest.now ≡ spec.digest_of name.now }
        ensures { option_copied result ≡ context_in self.now name.now }
    {
        if !self.lengths.may_have(name.len()) {
            return None;
        }
        let place = self.digests.place(with_bytes(digest, rest))?;
        self.at(place, name)
    }

    /// The same, of a name whose line most likely stands at this place.
    fn at(&self, place: usize, name: &[u8]) -> Option<&Context>
        ensures { option_copied result ≡ context_in self.now name.now }
    {
        match self.contexts.get_index(place) {
            Some((key, context)) if same_bytes(key.bytes(), name) => Some(context),
            _ => self.contexts.get(Spelled { bytes: name }),
        }
    }

    /// Walks over a name, as far as a line's name may be.
    pub fn walk<'a>(&self, name: &'a [u8]) -> Walked<'a>
        ensures name { result.name ≡ name.entry }
        ensures walked { IsWalked self.now result.name.now result.digest result.rest.now result.front }
    {
        let most = self.lengths.most;
        if name.len() <= most {
            return self.walk_over(name);
        }
        let (seen, rest) = name.split_at(most);
        let mut walked = self.walk_over(seen);
        walked.name = name;
        walked.rest = rest;
        walked
    }

    /// Walks over all bytes of a name.
    fn walk_over<'a>(&self, name: &'a [u8]) -> Walked<'a>
        ensures name { result.name ≡ name.entry }
        ensures rest { result.rest.now ≡ [] }
        ensures walked { IsWalked self.now result.name.now result.digest [] result.front }
    {
        let digests = &self.digests;
        let mut digest = 0;
        let mut front = later_front(
            Front {
                len: 0,
                place: None,
            },
            0,
            digests.place(0),
        );
        for (at, byte) in name.iter().enumerate() {
            digest = with_byte(digest, *byte);
            front = later_front(front, at + 1, digests.place(digest));
        }
        Walked {
            name,
            digest,
            rest: &[],
            front,
        }
    }

    /// The context of the longest line for a front of a name that was walked over. It takes no memory.
    pub fn longest(&self, walked: &Walked<'_>) -> Option<&Context>
        requires { IsWalked self.now walked.now.name.now walked.now.digest walked.now.rest.now walked.now.front }
        ensures { option_copied result
            ≡ option_map (λ line. line.context) (longest (filter (is_prefix_for walked.entry.now.name.now) self.now)) }
    {
        let place = walked.front.place?;
        let front = &walked.name[..walked.front.len];
        if let Some(context) = self.at(place, front) {
            return Some(context);
        }
        let (_, shorter) = front.split_last()?;
        self.longest(&self.walk(shorter))
    }
}

/// Puts a context at a name. False where the name has one, which goes.
fn put(
    contexts: &mut IndexMap<TextKey, Context>,
    name: Vec<u8>,
    context: Context,
) -> Result<bool, NoMemory>
    ensures fresh { IfOk result (λ fresh. fresh ≡ not (has_name (lines_in contexts.old) name.items)) }
    ensures added { IfOk result
        (λ fresh. IsTrue fresh → lines_in contexts.new ≡ lines_in contexts.old ++ named name.items context ∷ []) }
    ensures names { OnOk result ((other : List ℕ)
        → has_name (lines_in contexts.new) other ≡ (bytes_eq other name.items || has_name (lines_in contexts.old) other)) }
    ensures err { OnErr result (lines_in contexts.new ≡ lines_in contexts.old) }
{
    Ok(contexts.insert(TextKey::from_vec(name), context)?.is_none())
}

/// The longer front, where its digest stands, and else the one that is known.
fn later_front(known: Front, len: usize, place: Option<usize>) -> Front
    ensures { result ≡ (if is_some place then record { len = len; place = place } else known) }
{
    if place.is_some() {
        Front { len, place }
    } else {
        known
    }
}

/// The digest of a text.
fn digest_of(text: &[u8]) -> u64
    ensures { result ≡ spec.digest_of text.now }
{
    with_bytes(0, text)
}

/// The digest of a text with bytes more behind it.
fn with_bytes(known: u64, bytes: &[u8]) -> u64
    ensures { result ≡ fold spec.with_byte known bytes.now }
{
    let mut digest = known;
    for byte in bytes {
        digest = with_byte(digest, *byte);
    }
    digest
}

/// The digest of a text with a byte more behind it.
fn with_byte(digest: u64, byte: u8) -> u64
    ensures { result ≡ spec.with_byte digest byte }
{
    digest.wrapping_mul(FACTOR).wrapping_add(u64::from(byte))
}

/// Odd, so that no byte of a text is lost; it is that of the FNV hashes.
const FACTOR: u64 = 1_099_511_628_211;
