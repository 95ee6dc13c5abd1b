//! What a rule over a table owes so that cells may stand in it: one law for each kind of step.

ghost use Rattle.std.specs.Prelude.{◌≡◌, ◌<◌, ◌≤◌, ◌+◌, ◌^◌, [], ℕ, List, length, None};
ghost use mathlib.Core.Option.{some};
ghost use lib.ListN.{get_elem?};
ghost use Rattle.atomic_table.specs.Table.{State, Allows, Me};
ghost use Rattle.init_machine.specs.Serial.{top_byte, clean_serial as clean_serial_of, dirty_serial as dirty_serial_of};
ghost use Rattle.init_machine.specs.Sets.{Set};
ghost use Rattle.init_machine.specs.declared.client.ClientItem.{ClientItem};
ghost use Rattle.init_machine.specs.declared.report.Reading.{Reading};
ghost use Rattle.serial_value.specs.declared.view.CellView.{CellView};
ghost use Rattle.serial_value.specs.declared.view.CellView.TheVariants.{Writer};
ghost use Rattle.serial_value.specs.Words.{body_word, IsShortValue};
ghost use Rattle.serial_value.specs.internal.Parts.{AreWordsKept, IsNoted, IsPart, StandsBeside};
ghost use Rattle.serial_value.specs.Cell.{sets_of, making_of, HasShortCell, IsWriter, ReaderStands};
ghost use Rattle.serial_value.specs.Cell.{updating, accepted, IsUpdating, IsPresentSerial, IsPresentWord};
ghost use Rattle.serial_value.specs.Cell.{Begins, LiesAt, Copies, IsCopied, Ends};

use atomic_table::TableRule;
use std::marker::Brand;

/// What a step is about, for proofs alone: the name, the value that is being set, the cell's place and which of its words it
/// is.
pub trait Asked {
    ghost name: { List ℕ };

    ghost value: { List ℕ };

    ghost place: { ℕ };

    ghost index: { ℕ };
}

impl Asked for Brand {
    ghost name = { [] };

    ghost value = { [] };

    ghost place = { 0 };

    ghost index = { 0 };
}

/// A rule under which the steps at a cell may be made. V is what a seat knows, K what the table was told when it was made.
pub trait CellRule<V, K>: TableRule<(), V, K> {
    /// The part of a view that the steps change.
    ghost cell: { V → CellView };

    ghost with_cell: { V → CellView → V };

    /// The sets that there were when a reader's client began, and the client's list.
    ghost began: { V → List Set };

    ghost list: { V → List ClientItem };

    /// How many words the table has, as the seat knows.
    ghost words: { V → ℕ };

    /// The view whose list has one more reading.
    ghost noted: { V → Reading → V };

    /// The name's cell is linked at this place, as the seat knows.
    ghost Linked: { V → List ℕ → ℕ → Type 0 };

    /// The writer may begin an update, as far as the rest of its view tells.
    ghost Settled: { V → Type 0 };

    /// It is never called: laws stand below a function.
    fn no_call(&self);

    ghost part: { IsPart cell with_cell };

    ghost kept: { AreWordsKept with_cell noted words };

    ghost beside: { StandsBeside cell with_cell began list Linked Settled };

    ghost told: { IsNoted cell noted began list Linked };

    /// Some seat is the writer's.
    ghost writer_there: { (key : K) (s : State Unit V) → Self.holds key s →
        (writer : ℕ) × (w : V) × (get_elem? s.views writer ≡ some w) × IsWriter (cell w) };

    /// What readers were told is true of the writer's sets, and in order.
    ghost lists_stand: { (key : K) (s : State Unit V) (writer seat : ℕ) (w v : V) →
        Self.holds key s → get_elem? s.views writer ≡ some w → IsWriter (cell w) → get_elem? s.views seat ≡ some v →
        ReaderStands (sets_of (cell w)) (making_of (cell w)) (cell v) (began v) (list v) };

    /// The backup gets word k of the old value.
    ghost backup_word: { (key : K) (slots id : ℕ) (m : Me Unit V) (name value : List ℕ) (place k word : ℕ) →
        Settled m.0 → Linked m.0 name place → IsUpdating (cell m.0) name value place k → k < 12 → IsShortValue value →
        HasShortCell (sets_of (cell m.0)) name → IsPresentWord (sets_of (cell m.0)) name k word →
        Allows (Self.holds key) slots id m (4 + k) (λ _. word)
        (λ _ after. after ≡ (with_cell m.0 (updating (sets_of (cell m.0)) name value place (k + 1)), m.1)) };

    /// The clean serial gets its bit 0 set.
    ghost dirty_serial: { (key : K) (slots id : ℕ) (m : Me Unit V) (name value : List ℕ) (place clean : ℕ) →
        Settled m.0 → Linked m.0 name place → IsUpdating (cell m.0) name value place 12 →
        IsPresentSerial (sets_of (cell m.0)) name clean →
        Allows (Self.holds key) slots id m place (λ _. dirty_serial_of clean)
        (λ _ after. after ≡ (with_cell m.0 (updating (sets_of (cell m.0)) name value place 13), m.1)) };

    /// The cell gets word k of the new value.
    ghost value_word: { (key : K) (slots id : ℕ) (m : Me Unit V) (name value : List ℕ) (place k : ℕ) →
        Settled m.0 → Linked m.0 name place → IsUpdating (cell m.0) name value place (13 + k) → k < 12 →
        Allows (Self.holds key) slots id m (place + 1 + k) (λ _. body_word value k)
        (λ _ after. after ≡ (with_cell m.0 (updating (sets_of (cell m.0)) name value place (13 + k + 1)), m.1)) };

    /// The cell gets the clean serial of the new value, with which the set is accepted.
    ghost clean_serial: { (key : K) (slots id : ℕ) (m : Me Unit V) (name value : List ℕ) (place : ℕ) →
        Settled m.0 → Linked m.0 name place → IsUpdating (cell m.0) name value place 25 →
        length (sets_of (cell m.0)) + 1 < 2 ^ 55 →
        Allows (Self.holds key) slots id m place
        (λ _. clean_serial_of (top_byte value) (length (sets_of (cell m.0)) + 1))
        (λ _ after. after ≡ (with_cell m.0 (accepted (cell m.0) name value), m.1)) };

    /// A read loads the serial.
    ghost first_serial: { (key : K) (slots id : ℕ) (m : Me Unit V) (name : List ℕ) (place : ℕ) →
        Linked m.0 name place →
        Allows (Self.holds key) slots id m place (λ n. n)
        (λ n after. (after ≡ (with_cell m.0 (cell after.0), m.1)) × Begins (words m.0) (cell m.0) name place n (cell after.0)) };

    /// A read loads its word k.
    ghost copied_word: { (key : K) (slots id : ℕ) (m : Me Unit V) (name : List ℕ) (place k word_place : ℕ) →
        Linked m.0 name place → LiesAt (cell m.0) name place k word_place →
        Allows (Self.holds key) slots id m word_place (λ n. n)
        (λ n after. (after ≡ (with_cell m.0 (cell after.0), m.1)) × Copies (words m.0) (cell m.0) name k n (cell after.0)) };

    /// A read loads the serial again.
    ghost last_serial: { (key : K) (slots id : ℕ) (m : Me Unit V) (name : List ℕ) (place : ℕ) →
        Linked m.0 name place → IsCopied (cell m.0) name place →
        Allows (Self.holds key) slots id m place (λ n. n)
        (λ n after. (after.1 ≡ m.1) × Ends with_cell noted (cell m.0) m.0 name n after.0) };
}
