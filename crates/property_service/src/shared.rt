//! `Shared`: a service behind its lock.

ghost use Rattle.std.specs.Prelude.{◌≡◌, Some, None, Ok, Err, true, IfOk, OnOk, IsSomeAnd};
ghost use Rattle.init_core.specs.declared.machine.CoreStop.TheVariants as stop;
ghost use Rattle.init_machine.specs.declared.client.ClientItem.TheVariants.{Told};
ghost use Rattle.init_machine.specs.declared.output.SetRefusal.TheVariants as refusal;
ghost use Rattle.init_machine.specs.declared.report.Reading.TheVariants.{Synced};
ghost use Rattle.property_service.specs.Back.{ComesBack, ComesBackWith, has_entry, line_of};
ghost use Rattle.property_service.specs.Service.{DeclaredIn, IsNoSet, set_by};

use crate::answer::Accepted;
use crate::area_name::AreaName;
use crate::request::Request;
use crate::service::Service;
use init_base::NoMemory;
use init_core::CoreStop;
use init_machine::{Input, SetRefusal};
use property_area::Reader;
use std::alloc::Global;
use std::hint::spin_loop;
use std::sync::{Mutex, MutexGuard, Wait};

/// How many pauses of the processor a client makes behind each look at a lock that another client has. Behind the last it sleeps. To
/// sleep and be woken takes less time than all of them, and more than the first few; and while others pause long, a client that sets
/// again and again keeps the lock for some sets, so that the words that a set writes move seldom between processors.
const PAUSES: [u32; 7] = [64, 128, 256, 512, 1_024, 2_048, 4_096];

/// Makes so many pauses.
#[inline(never)]
fn pause(count: u32) {
    for _ in 0..count {
        spin_loop();
    }
}

/// A service that any number of threads may call. It serves the area that its last type parameter names. What a call promises of the
/// service itself isn't said through the lock, so `Spent`, as want of memory, may come at any call.
#[derive(Drop)]
pub struct Shared<'a, N: AreaName> {
    alloc: Global,
    lock: Mutex<Service<'a, N>>,
}

impl<'a, N: AreaName> Shared<'a, N> {
    /// Puts a service behind its lock. It takes no memory.
    pub fn new(service: Service<'a, N>) -> Shared<'a, N> {
        Shared {
            alloc: service.alloc,
            lock: Mutex::new(service),
        }
    }

    /// The service, once no other client has it.
    fn locked<R: Wait>(&self, rt: &R) -> MutexGuard<'_, Service<'a, N>> {
        for pauses in PAUSES {
            if let Some(service) = self.lock.try_lock() {
                return service;
            }
            pause(pauses);
        }
        self.lock.lock(rt)
    }

    /// `Service::set`, behind the lock. What it needs is made before the lock is taken, so that other clients don't wait for that.
    pub fn set<R: Wait>(
        &self,
        rt: &R,
        reader: Reader,
        name: &[u8],
        value: &[u8],
    ) -> (Option<Reader>, Result<Accepted, SetRefusal>)
        requires area { reader.table ≡ N.area }
        requires client { DeclaredIn reader.view.opening reader.view.who }
        ensures reader { has_entry result.1 ≡ true
            → IsSomeAnd result.0 (ComesBackWith (set_by reader.view.who name.now value.now) (Some (line_of result.1)) reader) }
        ensures unchanged { result.1 ≡ Err refusal.Spent → result.0 ≡ Some reader }
    {
        match Request::of(self.alloc, name, value) {
            Ok(request) => self.locked(rt).set_request(reader, request),
            Err(NoMemory) => self.locked(rt).run_out(reader),
        }
    }

    /// `Service::sync`, behind the lock.
    pub fn sync<R: Wait>(&self, rt: &R, reader: Reader) -> (Option<Reader>, Result<u64, CoreStop>)
        requires area { reader.table ≡ N.area }
        ensures reader { IfOk result.1 (λ count. IsSomeAnd result.0 (λ back. ComesBack reader back (Told (Synced count)) count)) }
        ensures unchanged { result.1 ≡ Err stop.Spent → result.0 ≡ Some reader }
    {
        self.locked(rt).sync(reader)
    }

    /// `Service::input`, behind the lock.
    pub fn input<R: Wait>(
        &self,
        rt: &R,
        reader: Reader,
        input: Input,
    ) -> (Option<Reader>, Result<(), CoreStop>)
        requires area { reader.table ≡ N.area }
        requires main { (reader.view.who ≡ 0) × IsNoSet input }
        ensures reader { OnOk result.1 (IsSomeAnd result.0 (ComesBackWith input None reader)) }
        ensures unchanged { result.1 ≡ Err stop.Spent → result.0 ≡ Some reader }
    {
        self.locked(rt).input(reader, input)
    }

    /// The service, which nobody shares any more.
    pub fn into_inner(self) -> Service<'a, N> {
        self.lock.into_inner()
    }
}
