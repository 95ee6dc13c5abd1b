//! What the bytes of a disk determine.

ghost use Rattle.std.specs.Prelude.{◌≡◌, ◌+◌, ◌≤◌, ℕ, List, length};
ghost use Rattle.persist_disk.specs.Image.{IsBad, IsStore, Opens};
ghost use Rattle.persist_disk.specs.Replacing.{formatted};

/// A disk opens to one text, and then its chosen slot isn't bad; one that was formatted opens to its text.
#[tactic(auto, using(crate::proofs::Crashes::not_bad))]
pub fn each_disk_opens_to_one_text()
    ensures one { (size : ℕ) (image text other : List ℕ) → Opens size image text → Opens size image other → text ≡ other }
    ensures not_both { (size number len : ℕ) (image : List ℕ) → IsStore size image → ¬ IsBad size image number len }
    ensures formatted { (size : ℕ) (text : List ℕ) → length text + 8 ≤ size → size ≤ 33554440
        → Opens size (formatted text) text }
{}
