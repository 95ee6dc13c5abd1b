//! The sets of a legal history: their numbers, and the values that they leave.

ghost use Rattle.std.specs.Prelude.{◌≡◌, ◌≤◌, ℕ, IsTrue, List, length, take};
ghost use Rattle.init_machine.specs.History.{after, Legal, inputs_of, sets_of, numbers_of, value_at, count_at};
ghost use Rattle.init_machine.specs.Sets.{count_on};
ghost use Rattle.init_machine.specs.Setting.{is_read_only};
ghost use Rattle.init_machine.specs.State.{Opening, value_now};
ghost use Rattle.init_machine.specs.declared.report.Entry.{Entry};
ghost use Rattle.machine_laws.specs.Counting.{counting_from};

/// The numbers of the accepted sets of a legal history count from 1 without a gap, and the state's count is how many
/// they are.
pub fn sets_are_counted()
    ensures numbers { (o : Opening) (history : List Entry) → Legal o history
        → numbers_of history ≡ counting_from 0 (length (sets_of history)) }
    ensures count { (o : Opening) (history : List Entry) → Legal o history
        → (after o (inputs_of history)).props.count ≡ length (sets_of history) }
{}

/// After a legal history each name has the value of the last of its sets that has the name, and no value where none
/// has it. It is so behind each entry too.
pub fn values_are_last_sets()
    ensures all { (o : Opening) (history : List Entry) (name : List ℕ) → Legal o history
        → value_now (after o (inputs_of history)) name ≡ value_at (sets_of history) (length (sets_of history)) name }
    ensures each { (o : Opening) (history : List Entry) (n : ℕ) (name : List ℕ) → Legal o history
        → value_now (after o (inputs_of (take n history))) name ≡ value_at (sets_of history) (count_at history n) name }
{}

/// A property whose name begins with `ro.` is set at most once in a legal history.
pub fn read_only_is_put_once()
    ensures { (o : Opening) (history : List Entry) (name : List ℕ) → Legal o history
        → IsTrue (is_read_only name) → count_on name (sets_of history) ≤ 1 }
{}
