//! Whether an event triggers an action, with the properties as the store has them.

ghost use Rattle.std.specs.Prelude.{◌≡◌, IsTrue, true};
ghost use Rattle.std.specs.List.{list_any, list_all};
ghost use Rattle.std.specs.Option.{option_copied};
ghost use Rattle.init_machine.specs.Matches.{matches, has_event, has_no_event, holds_for, tests};
ghost use Rattle.init_machine.specs.Matches as spec;
ghost use Rattle.action_queue.specs.Queue.{value_in, has_legal_name};
ghost use Rattle.action_queue.specs.internal.Tests.{holds_after};

use init_base::{List, PropName, Text};
use init_machine::{Action, Event, Pair, PropStore, PropTest, has_value};

/// Whether the event triggers the action now.
#[tactic(auto, unfolding(init_machine::specs::Matches::matches))]
pub fn is_triggered<S: PropStore>(store: &mut S, event: &Event, action: &Action) -> bool
    requires { IsTrue (list_all has_legal_name action.now.props) }
    ensures answer { result ≡ matches (value_in (S.meaning store.old)) event.now action.now }
    ensures same { S.meaning store.new ≡ S.meaning store.old }
    ensures told { S.told store.new ≡ S.told store.old }
    ensures spare { S.spare store.new ≡ S.spare store.old }
    ensures beside { S.Beside store.old store.new }
{
    match event {
        Event::Named(name) => is_named(&action.event, name) && all_hold(store, None, &action.props),
        Event::Change(pair) => {
            action.event.is_none()
                && is_tested(pair, &action.props)
                && all_hold(store, Some(pair), &action.props)
        }
        Event::AllProperties => action.event.is_none() && all_hold(store, None, &action.props),
        Event::Mark => false,
    }
}

fn is_named(event: &Option<Text>, name: &Text) -> bool
    ensures { result ≡ has_event event.now name.now }
{
    match event {
        Some(event) => event.is(name.bytes()),
        None => false,
    }
}

/// Whether one of the tests is of the changed property.
fn is_tested(pair: &Pair, props: &List<PropTest>) -> bool
    ensures { result ≡ list_any (tests pair.now.name) props.now }
{
    props
        .items()
        .iter()
        .any(|test| test.name.is(pair.name.bytes()))
}

/// Whether all tests hold, where this property was changed, or none.
fn all_hold<S: PropStore>(store: &mut S, changed: Option<&Pair>, props: &List<PropTest>) -> bool
    requires { IsTrue (list_all has_legal_name props.now) }
    ensures answer { result ≡ list_all (holds_after (value_in (S.meaning store.old)) (option_copied changed.entry)) props.now }
    ensures same { S.meaning store.new ≡ S.meaning store.old }
    ensures told { S.told store.new ≡ S.told store.old }
    ensures spare { S.spare store.new ≡ S.spare store.old }
    ensures beside { S.Beside store.old store.new }
{
    for test in props.items() {
        if !holds(store, changed, test) {
            return false;
        }
    }
    true
}

/// The changed property is tested by its new value, and another one by what it is now.
fn holds<S: PropStore>(store: &mut S, changed: Option<&Pair>, test: &PropTest) -> bool
    requires { IsTrue (has_legal_name test.now) }
    ensures answer { result ≡ holds_after (value_in (S.meaning store.old)) (option_copied changed.entry) test.now }
    ensures same { S.meaning store.new ≡ S.meaning store.old }
    ensures told { S.told store.new ≡ S.told store.old }
    ensures spare { S.spare store.new ≡ S.spare store.old }
    ensures beside { S.Beside store.old store.new }
{
    let Some(pair) = changed else {
        return holds_now(store, test);
    };
    if !test.name.is(pair.name.bytes()) {
        return holds_now(store, test);
    }
    holds_for_value(pair, test)
}

fn holds_for_value(pair: &Pair, test: &PropTest) -> bool
    ensures { result ≡ holds_for pair.now.value test.now.value }
{
    match &test.value {
        Some(value) => pair.value.is(value.bytes()),
        None => true,
    }
}

#[tactic(auto, using(crate::proofs::Values::equals_empty))]
fn holds_now<S: PropStore>(store: &mut S, test: &PropTest) -> bool
    requires { IsTrue (has_legal_name test.now) }
    ensures answer { result ≡ spec.holds_now (value_in (S.meaning store.old)) test.now }
    ensures same { S.meaning store.new ≡ S.meaning store.old }
    ensures told { S.told store.new ≡ S.told store.old }
    ensures spare { S.spare store.new ≡ S.spare store.old }
    ensures beside { S.Beside store.old store.new }
{
    let name = PropName {
        bytes: test.name.bytes(),
    };
    match &test.value {
        Some(value) => has_value(store, name, value.bytes()),
        None => !has_value(store, name, b""),
    }
}
