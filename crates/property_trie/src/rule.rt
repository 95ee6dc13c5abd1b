//! What a rule over a table owes so that a trie may stand in it: one law for each kind of step.

ghost use Rattle.std.specs.Prelude.{◌≡◌, ◌<◌, ◌≤◌, ◌+◌, ◌^◌, ℕ, suc, List, [], ◌∷◌, ◌++◌, length, IsTrue, Contains};
ghost use Rattle.atomic_table.specs.Table.{Allows, Me};
ghost use Rattle.init_base.specs.Value.{max_value_len};
ghost use Rattle.init_machine.specs.declared.report.Reading.{Reading};
ghost use Rattle.serial_value.specs.declared.view.CellView.{CellView};
ghost use Rattle.serial_value.specs.Words.{text_word, IsValue};
ghost use Rattle.serial_value.specs.Cell.{sets_of};
ghost use Rattle.property_trie.specs.Parts.{parts_of};
ghost use Rattle.property_trie.specs.Walk.{EndsAt};
ghost use Rattle.property_trie.specs.Additions.{IsAdding, IsNext, adding, free_place, tree_with, new_node, new_cell, with_added};
ghost use Rattle.property_trie.specs.TreeWords.{part_words, link_at};
ghost use Rattle.property_trie.specs.TrieSteps.{LeadsTo, Follows, StandsAt, part_at, ComesTo, Ends};
ghost use Rattle.property_trie.specs.declared.view.TrieView.{TrieView};

use crate::view::TrieView;
use serial_value::CellRule;
use std::marker::Brand;

/// What a step of a walk is about, for proofs alone: the name that is looked for, its parts that are left, the link's place,
/// and which word of the part it is.
pub trait Sought {
    ghost name: { List ℕ };

    ghost rest: { List (List ℕ) };

    ghost link: { ℕ };

    ghost index: { ℕ };
}

impl Sought for Brand {
    ghost name = { [] };

    ghost rest = { [] };

    ghost link = { 0 };

    ghost index = { 0 };
}

/// What a step of an addition is about, for proofs alone: the name and the value that are added, how many nodes are linked,
/// and the words that stand from the first free word on.
pub trait Added {
    ghost name: { List ℕ };

    ghost value: { List ℕ };

    ghost linked: { ℕ };

    ghost fresh: { List ℕ };
}

impl Added for Brand {
    ghost name = { [] };

    ghost value = { [] };

    ghost linked = { 0 };

    ghost fresh = { [] };
}

/// A rule under which the steps at a trie may be made.
pub trait TrieRule<V, K>: CellRule<V, K> {
    /// The part of a view that the steps change.
    ghost trie: { V → TrieView };

    ghost with_trie: { V → TrieView → V };

    /// It is never called: laws stand below a function.
    fn no_trie_call(&self);

    ghost trie_with: { (v : V) (t : TrieView) → trie (with_trie v t) ≡ t };

    ghost trie_same: { (v : V) → with_trie v (trie v) ≡ v };

    ghost trie_twice: { (v : V) (t u : TrieView) → with_trie (with_trie v t) u ≡ with_trie v u };

    ghost cell_beside: { (v : V) (t : TrieView) → Self.cell (with_trie v t) ≡ Self.cell v };

    ghost trie_beside: { (v : V) (c : CellView) → trie (Self.with_cell v c) ≡ trie v };

    ghost trie_noted: { (v : V) (r : Reading) → trie (Self.noted v r) ≡ trie v };

    ghost words_stay: { (v : V) (t : TrieView) → Self.words (with_trie v t) ≡ Self.words v };

    ghost list_beside: { (v : V) (t : TrieView)
        → (Self.list (with_trie v t) ≡ Self.list v) × (Self.began (with_trie v t) ≡ Self.began v) };

    /// A cell that a live seat has found is linked.
    ghost known_linked: { (v : V) (name : List ℕ) (place : ℕ) →
        IsTrue (trie v).live → Contains (trie v).known (name, place) → Self.Linked v name place };

    /// An addition that is under way doesn't unsettle the writer.
    ghost settled_beside: { (v : V) (t : TrieView) → t.live ≡ (trie v).live → Self.Settled v → Self.Settled (with_trie v t) };

    /// A walk loads a link to siblings.
    ghost followed_link: { (key : K) (slots id : ℕ) (m : Me Unit V) (name : List ℕ) (link : ℕ) (rest : List (List ℕ)) →
        LeadsTo (trie m.0) name link rest →
        Allows (Self.holds key) slots id m link (λ n. n)
        (λ n after. (after.1 ≡ m.1)
        × Follows with_trie Self.noted (Self.words m.0) (Self.cell m.0) (trie m.0) m.0 name link rest n after.0) };

    /// It loads the length of the part of the node that it stands at.
    ghost node_length: { (key : K) (slots id : ℕ) (m : Me Unit V) (place : ℕ) →
        IsTrue (trie m.0).live → StandsAt (trie m.0).trail place →
        Allows (Self.holds key) slots id m place (λ n. n)
        (λ n after. (after ≡ m) × (n ≡ length (part_at (trie m.0).trail))) };

    /// It loads word k of that part.
    ghost node_word: { (key : K) (slots id : ℕ) (m : Me Unit V) (place k : ℕ) →
        IsTrue (trie m.0).live → StandsAt (trie m.0).trail place → k < part_words (part_at (trie m.0).trail) →
        Allows (Self.holds key) slots id m (place + 5 + k) (λ n. n)
        (λ n after. (after ≡ m) × (n ≡ text_word (part_at (trie m.0).trail) k)) };

    /// It loads the link to the cell of the property.
    ghost cell_link: { (key : K) (slots id : ℕ) (m : Me Unit V) (name : List ℕ) (link : ℕ) →
        ComesTo (trie m.0) name link →
        Allows (Self.holds key) slots id m link (λ n. n)
        (λ n after. (after.1 ≡ m.1) × Ends with_trie Self.noted (Self.words m.0) (Self.cell m.0) (trie m.0) m.0 name link n after.0) };

    /// The next free word gets a word of a node or of the cell.
    ghost fresh_word: { (key : K) (slots id : ℕ) (m : Me Unit V) (name : List ℕ) (linked : ℕ) (fresh : List ℕ) (word : ℕ) →
        Self.Settled m.0 → IsAdding (Self.cell m.0) (trie m.0) name linked fresh →
        free_place (sets_of (Self.cell m.0)) name linked + length fresh < Self.words m.0 →
        Allows (Self.holds key) slots id m (free_place (sets_of (Self.cell m.0)) name linked + length fresh) (λ _. word)
        (λ _ after. after ≡ (with_trie m.0 (adding (trie m.0) name linked (fresh ++ word ∷ [])), m.1)) };

    /// The link to a node whose words stand all.
    ghost interior_link: { (key : K) (slots id : ℕ) (m : Me Unit V) (name : List ℕ) (linked : ℕ) (part : List ℕ) →
        Self.Settled m.0 → IsAdding (Self.cell m.0) (trie m.0) name linked (new_node part) →
        IsNext (sets_of (Self.cell m.0)) name linked part →
        Allows (Self.holds key) slots id m (link_at 1 (tree_with (sets_of (Self.cell m.0)) name linked) (parts_of name))
        (λ _. free_place (sets_of (Self.cell m.0)) name linked)
        (λ _ after. after ≡ (with_trie m.0 (adding (trie m.0) name (suc linked) []), m.1)) };

    /// The link to the cell, whose words stand all; with it the set is accepted.
    ghost property_link: { (key : K) (slots id : ℕ) (m : Me Unit V) (name value : List ℕ) (linked link : ℕ) →
        Self.Settled m.0 → IsAdding (Self.cell m.0) (trie m.0) name linked (new_cell (length (sets_of (Self.cell m.0)) + 1) value) →
        IsValue value → length value ≤ max_value_len name → length (sets_of (Self.cell m.0)) + 1 < 2 ^ 55 →
        EndsAt (tree_with (sets_of (Self.cell m.0)) name linked) (parts_of name) link →
        Allows (Self.holds key) slots id m link (λ _. free_place (sets_of (Self.cell m.0)) name linked)
        (λ _ after. after ≡ (
          with_added Self.with_cell with_trie (Self.cell m.0) (trie m.0) m.0 name value
              (free_place (sets_of (Self.cell m.0)) name linked),
          m.1,
        )) };
}
