//! Laws of the definitions in `specs/`, each the contract of a function that does nothing. They are stated in
//! `specs/Laws.antt`.

ghost use Rattle.init_machine.specs.Laws.{OrderIsFree, AddsItsNewNodes, AbsentTakesItsNeed, EachWordHasItsText, HeldNeedsNothing, HeldTakesNothing};

/// Properties take the same words in each order.
#[tactic(auto, using(crate::proofs::Needs::used_permuted))]
pub fn order_is_free()
    ensures { OrderIsFree }
{}

/// A name more adds its cell, and a node for each of its dotted prefixes that is new.
#[tactic(auto, using(crate::proofs::Needs::need_by_new_nodes))]
pub fn adds_its_new_nodes()
    ensures { AddsItsNewNodes }
{}

/// A name that is held needs no words.
#[tactic(auto, using(crate::proofs::Needs::held_needs))]
pub fn held_needs_nothing()
    ensures { HeldNeedsNothing }
{}

/// A set of an absent name takes the words that it needs.
#[tactic(auto, using(crate::proofs::Sets::absent_takes))]
pub fn absent_takes_its_need()
    ensures { AbsentTakesItsNeed }
{}

/// A set of a name that is held takes no words, where both values are short.
#[tactic(auto, using(crate::proofs::Sets::held_takes))]
pub fn held_takes_nothing()
    ensures { HeldTakesNothing }
{}

/// The text of a command names it, and no other command.
#[tactic(auto, using(crate::proofs::Texts::each_word))]
pub fn each_word_has_its_text()
    ensures { EachWordHasItsText }
{}
