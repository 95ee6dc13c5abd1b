//! Laws of the definitions in `specs/`, each the contract of a function that does nothing. They are stated in
//! `specs/Laws.antt`.

ghost use Rattle.property_trie.specs.Laws.{MarkIsWordsUsed, CellHasItsWords, FindsItsNames, HasItsPrefixes, AlwaysLiesWell, OnlyExtends, PartsTellNames};

/// The mark of the trie of names is the number of words that they use.
#[tactic(auto, using(crate::proofs::Tries::mark_is_words_used))]
pub fn mark_is_words_used()
    ensures { MarkIsWordsUsed }
{}

/// A name has no cell exactly where it isn't among the names.
#[tactic(auto, using(crate::proofs::Tries::finds_its_names))]
pub fn finds_its_names()
    ensures { FindsItsNames }
{}

/// Each cell has the words of its name's first value.
#[tactic(auto, using(crate::proofs::Tries::cell_has_its_words))]
pub fn cell_has_its_words()
    ensures { CellHasItsWords }
{}

/// The nodes are those of the dotted prefixes of the names.
#[tactic(auto, using(crate::proofs::Tries::has_its_prefixes))]
pub fn has_its_prefixes()
    ensures { HasItsPrefixes }
{}

/// Siblings are a search tree, links lead upwards, and nodes and cells don't overlap.
#[tactic(auto, using(crate::proofs::Tries::always_lies_well))]
pub fn always_lies_well()
    ensures { AlwaysLiesWell }
{}

/// Nothing is ever removed.
#[tactic(auto, using(crate::proofs::Tries::only_extends))]
pub fn only_extends()
    ensures { OnlyExtends }
{}

/// Names are known by their parts.
#[tactic(auto, using(crate::proofs::Tries::parts_tell_names))]
pub fn parts_tell_names()
    ensures { PartsTellNames }
{}
