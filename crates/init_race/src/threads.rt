//! The actors on threads of their own.

ghost use Rattle.std.specs.Prelude.{◌≡◌, ◌∷◌, ◌++◌, [], All, IfOk, IfSome, OnOk};
ghost use Rattle.init_race.specs.Acting.{IsThrough};
ghost use Rattle.init_race.specs.Threads.{EachThrough, MayAct, somes};

use crate::actors::{Acted, Stage};
use crate::gate::Gate;
use init_base::NoMemory;
use property_area::Reader;
use property_service::AreaName;
use std::alloc::Global;
use std::sync::Wait;
use std::thread::{Threads, map_vec};

/// Each actor does its part, on a thread of its own where one can be had.
pub(crate) fn act_all<N: AreaName + Send + Sync, R: Threads + Wait + Sync, G: Gate>(
    stage: &Stage<'_, '_, N, R, G>,
    readers: Vec<Reader>,
) -> Result<Vec<Acted>, NoMemory>
    requires { All (MayAct N.area) readers.items }
    ensures { IfOk result (λ acted. EachThrough stage.now.script.now readers.items acted.items) }
{
    let done = map_vec(
        stage.rt,
        readers,
        &|reader: Reader| -> Option<Acted>
            requires { MayAct N.area reader }
            ensures { IfSome result (λ acted. IsThrough stage.entry.now.script.now reader acted.reader acted.readings) }
        { stage.act(reader) },
    )?;
    all_of(stage.alloc, done)
}

/// All values, where there is each of them.
fn all_of(alloc: Global, options: Vec<Option<Acted>>) -> Result<Vec<Acted>, NoMemory>
    ensures { IfOk result (λ all. somes all.items ≡ options.items) }
{
    let mut all = Vec::with_capacity(alloc, options.len())?;
    for option in options {
        add(&mut all, option)?;
    }
    Ok(all)
}

/// Adds a value, where there is one.
#[tactic(auto, using(crate::proofs::Gathered::some_added))]
fn add(all: &mut Vec<Acted>, option: Option<Acted>) -> Result<(), NoMemory>
    ensures { OnOk result (somes all.new.items ≡ somes all.old.items ++ option ∷ []) }
{
    let Some(one) = option else {
        return Err(NoMemory);
    };
    all.push(one)?;
    Ok(())
}
