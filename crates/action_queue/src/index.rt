//! An index of actions, by what may trigger them. `IsIndexOf` of `specs/Index.antt` says what it has.

ghost use Rattle.std.specs.Prelude.{◌≡◌, OnOk, IfOk};
ghost use Rattle.action_queue.specs.Index.{IsIndexOf, HasAdded, HasAddedTest, HasAddedTests, IsBehind, ends_with};

use crate::by_name::{PlacesByName, add, find, no_places};
use init_base::{List, NoMemory};
use init_machine::{Action, PropTest};
use std::alloc::Global;

/// The places of actions, ascending.
#[derive(Drop)]
pub struct Index {
    /// Those of an event.
    pub by_event: PlacesByName,
    /// Those without event that test a property.
    pub by_property: PlacesByName,
    pub without_event: Vec<usize>,
}

/// The index of some actions.
pub fn make_index(alloc: Global, actions: &List<Action>) -> Result<Index, NoMemory>
    ensures { IfOk result (IsIndexOf actions.now) }
{
    let mut index = Index {
        by_event: no_places(alloc),
        by_property: no_places(alloc),
        without_event: Vec::new(alloc),
    };
    for (at, action) in actions.items().iter().enumerate() {
        add_action(alloc, &mut index, action, at)?;
    }
    Ok(index)
}

/// Adds an action, whose place is behind those that are there.
fn add_action(alloc: Global, index: &mut Index, action: &Action, at: usize) -> Result<(), NoMemory>
    requires { IsBehind at index.old.by_property }
    ensures { OnOk result (HasAdded index.old action.now at index.new) }
{
    match &action.event {
        Some(event) => add(alloc, &mut index.by_event, event.bytes(), at)?,
        None => {
            index.without_event.push(at)?;
            add_tests(alloc, &mut index.by_property, &action.props, at)?;
        }
    }
    Ok(())
}

/// Adds a place under the name of each test, once under each. It is behind those that are there.
fn add_tests(
    alloc: Global,
    places: &mut PlacesByName,
    props: &List<PropTest>,
    at: usize,
) -> Result<(), NoMemory>
    requires { IsBehind at places.old }
    ensures { OnOk result (HasAddedTests places.old props.now at places.new) }
{
    for test in props.items() {
        add_test(alloc, places, test, at)?;
    }
    Ok(())
}

/// Adds a place under the name of a test, unless it is the last one there.
fn add_test(
    alloc: Global,
    places: &mut PlacesByName,
    test: &PropTest,
    at: usize,
) -> Result<(), NoMemory>
    ensures { OnOk result (HasAddedTest places.old test.now.name at places.new) }
{
    let name = test.name.bytes();
    if is_last(find(places, name), at) {
        return Ok(());
    }
    add(alloc, places, name, at)
}

fn is_last(places: &[usize], at: usize) -> bool
    ensures { result ≡ ends_with at places.now }
{
    match places.last() {
        Some(last) => *last == at,
        None => false,
    }
}
