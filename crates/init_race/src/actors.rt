//! The actors of a script: the main actor and the clients, each with its reader.

ghost use Rattle.std.specs.Prelude.{◌≡◌, ◌≤◌, ◌∷◌, ◌⊎◌, ℕ, [], true, IfOk, IfSome, length, not, replicate};
ghost use Rattle.std.specs.List.{filter_map, flat_map};
ghost use Rattle.init_base.specs.Name.{LegalName};
ghost use Rattle.init_driver.specs.Run.{AsksAreMet};
ghost use Rattle.init_machine.specs.declared.client.ClientItem.TheVariants.{Told};
ghost use Rattle.init_machine.specs.declared.input.Input.TheVariants as Input;
ghost use Rattle.init_race.specs.Asks.{asks-prop};
ghost use Rattle.init_race.specs.Acting.{AnswersAll, AsksInputs, GoesOn, IsThrough, begun};
ghost use Rattle.property_service.specs.Back.{has_entry};
ghost use Rattle.property_service.specs.Service.{DeclaredIn, IsNoSet};
ghost use Rattle.script_lang.specs.Inputs.{ask_by, main_inputs, part_of};
ghost use Rattle.script_lang.specs.Laws.{IsAskAmong, ReadsLegal};
ghost use Rattle.script_lang.specs.declared.script.Ask.TheVariants as ask;
ghost use Rattle.trace_audit.specs.Audited.{is_answer};

use crate::gate::{Gate, Point};
use init_base::{List, NoMemory, Text};
use init_machine::{Input, Pair, Reading, SetRefusal};
use property_area::{Area, Reader};
use property_service::{Accepted, AreaName, Shared};
use script_lang::{Act, Ask, Script};
use std::alloc::Global;
use std::sync::Wait;

/// A reader that is through a part of its actor's script, with what its client was told.
#[derive(Drop)]
pub struct Acted {
    pub reader: Reader,
    pub readings: List<Reading>,
}

/// What all actors share.
#[derive(Drop)]
pub struct Stage<'s, 'a, N: AreaName, R: Wait, G: Gate> {
    pub rt: &'s R,
    pub alloc: Global,
    pub area: &'s Area,
    pub shared: &'s Shared<'a, N>,
    pub script: &'s Script,
    pub gate: &'s G,
    pub ghost named: { area.now ≡ N.area },
    pub ghost asks: { AsksAreMet script.now } by { asks-prop script.now },
}

impl<'s, 'a, N: AreaName, R: Wait, G: Gate> Stage<'s, 'a, N, R, G> {
    /// An actor's part of the script. The main actor is client 0. None where memory ran out, here or at another actor.
    pub fn act(&self, reader: Reader) -> Option<Acted>
        requires area { reader.table ≡ N.area }
        requires known { reader.view.who ≡ 0 ⊎ DeclaredIn reader.view.opening reader.view.who }
        ensures { IfSome result (λ acted. IsThrough self.now.script.now reader acted.reader acted.readings) }
    {
        if reader.who().0 == 0 {
            let reader = self.act_main(reader)?;
            Some(Acted {
                reader,
                readings: List::new(self.alloc),
            })
        } else {
            self.act_client(reader)
        }
    }

    /// The main actor's inputs, one after another.
    fn act_main(&self, reader: Reader) -> Option<Reader>
        requires area { reader.table ≡ N.area }
        requires main { reader.view.who ≡ 0 }
        ensures { IfSome result (λ back. AsksInputs reader back (flat_map main_inputs self.now.script.now.acts)) }
    {
        let mut reader = reader;
        let mut at = 0;
        for act in self.script.acts.items() {
            reader = self.main_act(reader, act, &mut at)?;
        }
        Some(reader)
    }

    /// The inputs of an act, where it is the main actor's.
    fn main_act(&self, reader: Reader, act: &Act, at: &mut u32) -> Option<Reader>
        requires area { reader.table ≡ N.area }
        requires main { reader.view.who ≡ 0 }
        ensures { IfSome result (λ back. AsksInputs reader back (main_inputs act.now)) }
    {
        match act {
            Act::Step(count) => self.steps(reader, *count, at),
            Act::Tick(ms) => self.input(reader, Input::Tick { ms: *ms }, at),
            Act::Exit { name, status } => {
                let name = name.share().ok()?;
                let status = *status;
                self.input(reader, Input::Exit { name, status }, at)
            }
            Act::File { path, content } => {
                let path = path.share().ok()?;
                let content = content.share().ok()?;
                self.input(reader, Input::File { path, content }, at)
            }
            Act::Ask { .. } => Some(reader),
        }
    }

    /// So many times the next event or command.
    fn steps(&self, reader: Reader, count: u32, at: &mut u32) -> Option<Reader>
        requires area { reader.table ≡ N.area }
        requires main { reader.view.who ≡ 0 }
        ensures { IfSome result (λ back. AsksInputs reader back (replicate count Input.Next)) }
    {
        let mut reader = reader;
        for _ in 0..count {
            reader = self.input(reader, Input::Next, at)?;
        }
        Some(reader)
    }

    /// An input of the main actor.
    fn input(&self, reader: Reader, input: Input, at: &mut u32) -> Option<Reader>
        requires area { reader.table ≡ N.area }
        requires main { (reader.view.who ≡ 0) × IsNoSet input }
        ensures { IfSome result (λ back. AsksInputs reader back (input ∷ [])) }
    {
        let who = reader.who();
        self.gate.pass(Point::Before { who, at: *at });
        let (reader, taken) = self.shared.input(self.rt, reader, input);
        self.gate.pass(Point::After { who, at: *at });
        *at = at.saturating_add(1);
        match taken {
            Ok(()) => reader,
            Err(_) => None,
        }
    }

    /// A client's requests, one after another.
    fn act_client(&self, reader: Reader) -> Option<Acted>
        requires area { reader.table ≡ N.area }
        requires client { DeclaredIn reader.view.opening reader.view.who }
        ensures { IfSome result (λ acted. AnswersAll (begun reader) acted (part_of reader.view.who self.now.script.now)) }
    {
        let mut acted = Acted {
            reader,
            readings: List::new(self.alloc),
        };
        let mut at = 0;
        for act in self.script.acts.items() {
            acted = self.client_act(acted, act, &mut at)?;
        }
        Some(acted)
    }

    /// The request of an act, where it is the client's.
    fn client_act(&self, acted: Acted, act: &Act, at: &mut u32) -> Option<Acted>
        requires area { acted.reader.table ≡ N.area }
        requires client { DeclaredIn acted.reader.view.opening acted.reader.view.who }
        requires legal { IsAskAmong (length self.now.script.now.clients) act.now }
        ensures { IfSome result (λ after. AnswersAll acted after (filter_map (ask_by acted.reader.view.who) (act.now ∷ []))) }
    {
        let Act::Ask { who, ask } = act else {
            return Some(acted);
        };
        if who.0 != acted.reader.who().0 {
            return Some(acted);
        }
        self.request(acted, ask, at)
    }

    /// A request of a client.
    fn request(&self, acted: Acted, ask: &Ask, at: &mut u32) -> Option<Acted>
        requires area { acted.reader.table ≡ N.area }
        requires client { DeclaredIn acted.reader.view.opening acted.reader.view.who }
        requires legal { ReadsLegal ask.now }
        ensures { IfSome result (λ after. AnswersAll acted after (ask.now ∷ [])) }
    {
        let who = acted.reader.who();
        self.gate.pass(Point::Before { who, at: *at });
        let answered = self.answer(acted, ask);
        self.gate.pass(Point::After { who, at: *at });
        *at = at.saturating_add(1);
        answered
    }

    /// A request of a client, between the passes of the gate. A read and a catch take no lock.
    fn answer(&self, acted: Acted, ask: &Ask) -> Option<Acted>
        requires area { acted.reader.table ≡ N.area }
        requires client { DeclaredIn acted.reader.view.opening acted.reader.view.who }
        requires legal { ReadsLegal ask.now }
        ensures { IfSome result (λ after. AnswersAll acted after (ask.now ∷ [])) }
    {
        match ask {
            Ask::Set(pair) => self.set(acted, pair),
            Ask::Read(name) => self.read(acted, name),
            Ask::Sync => self.sync(acted),
            Ask::Catch => self.catch_up(acted),
        }
    }

    fn set(&self, acted: Acted, pair: &Pair) -> Option<Acted>
        requires area { acted.reader.table ≡ N.area }
        requires client { DeclaredIn acted.reader.view.opening acted.reader.view.who }
        ensures { IfSome result (λ after. AnswersAll acted after (ask.Set pair.now ∷ [])) }
    {
        let Acted { reader, readings } = acted;
        let (name, value) = (pair.name.bytes(), pair.value.bytes());
        let (reader, answer) = self.shared.set(self.rt, reader, name, value);
        if is_lost(&answer) {
            return None;
        }
        let reader = reader?;
        Some(Acted { reader, readings })
    }

    fn read(&self, acted: Acted, name: &Text) -> Option<Acted>
        requires area { acted.reader.table ≡ N.area }
        requires legal { LegalName name.now }
        ensures { IfSome result (λ after. AnswersAll acted after (ask.Read name.now ∷ [])) }
    {
        let Acted {
            mut reader,
            mut readings,
        } = acted;
        let reading = self.told(&mut reader, name).ok()?;
        readings.push(reading).ok()?;
        Some(Acted { reader, readings })
    }

    /// One attempt to read a property with a client's reader. The answer is what the client was told.
    fn told(&self, reader: &mut Reader, name: &Text) -> Result<Reading, NoMemory>
        requires area { reader.old.table ≡ N.area }
        requires legal { LegalName name.now }
        ensures told { IfOk result (λ reading. GoesOn reader.old reader.new (Told reading ∷ [])) }
        ensures answers { IfOk result (λ reading. is_answer (ask.Read name.now) reading ≡ true) }
        ensures table { reader.new.table ≡ reader.old.table }
    {
        init_driver::read(self.alloc, self.area, reader, name)
    }

    fn sync(&self, acted: Acted) -> Option<Acted>
        requires area { acted.reader.table ≡ N.area }
        ensures { IfSome result (λ after. AnswersAll acted after (ask.Sync ∷ [])) }
    {
        let Acted {
            reader,
            mut readings,
        } = acted;
        let (reader, count) = self.shared.sync(self.rt, reader);
        let number = count.ok()?;
        let reader = reader?;
        readings.push(Reading::Synced { number }).ok()?;
        Some(Acted { reader, readings })
    }

    fn catch_up(&self, acted: Acted) -> Option<Acted>
        requires area { acted.reader.table ≡ N.area }
        ensures { IfSome result (λ after. AnswersAll acted after (ask.Catch ∷ [])) }
    {
        let Acted {
            mut reader,
            mut readings,
        } = acted;
        let number = reader.catch_up(self.area);
        readings.push(Reading::Caught { number }).ok()?;
        Some(Acted { reader, readings })
    }
}

/// Whether a set wasn't answered by the machine, since memory ran out.
fn is_lost(answer: &Result<Accepted, SetRefusal>) -> bool
    ensures { result ≡ not (has_entry answer.now) }
{
    matches!(answer, Err(SetRefusal::Spent | SetRefusal::NoMemory))
}
