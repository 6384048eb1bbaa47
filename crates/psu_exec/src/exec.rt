//! The device with its store, and every call on it.
ghost use Rattle.std.specs.Prelude.{◌≡◌, ◌==◌, [], IfOk, IfErr, Some, true};
ghost use Rattle.psu_nv.specs.Contents.{Contents as Kept, items_of, IsContents, fits};
ghost use Rattle.psu_exec.specs.Consistent.{IsConsistent};
ghost use Rattle.psu_exec.specs.Device.{State, followed, is_open, power_on, with_device};
ghost use Rattle.psu_exec.specs.Starts.{AreBad};
ghost use Rattle.psu_exec.specs.ServiceStates.{enabled_of};
ghost use Rattle.psu_exec.specs.Shown.{cause_of};
ghost use Rattle.psu_locks.specs.Locks.{no_locks};
ghost use Rattle.psu_status.specs.Status.{first_request, prescribed};

mod flushing;
mod locks;
mod sessions;
mod units;

use crate::service_states::{follow, initial_service_state};
use crate::{
    ChangedParts, Condition, Contents, Enabled, Ended, Idle, IdleStore, LockTable, PowerCause,
    PowerFault, SESSIONS, ServiceState, Session, Wait,
};
use psu_disk::Disk;
use psu_instrument::Instrument;
use psu_items::{Items, Plan, Store};
use psu_nv::DecodeFault;
use std::alloc::{AllocError, Allocator};
use std::marker::Model;

/// The device with its store: the nonvolatile contents, the instrument, the sessions, the accepted changes that are not
/// yet flushed, and the store. While a job is out, the job has the store. Its store is an `IdleStore`, as `Exec` says:
/// what contracts see of it names the type of the store, and no disk.
#[derive(Drop)]
pub struct ExecOf<S: Idle, A: Allocator + Copy> {
    alloc: A,
    limit: u16,
    contents: Contents<A>,
    // The map that the store holds, or held before its job, with the batch of the job that is out or of the store
    // that broke.
    map: Plan<A>,
    // How many changes are in that batch.
    held: Option<usize>,
    // The parts that may differ from the map that the batch produces, or from the store's map if there is no batch.
    touched: ChangedParts,
    unflushed: usize,
    store: Condition,
    idle_store: Option<S>,
    waits: [Option<Wait>; SESSIONS],
    open_now: [bool; SESSIONS],
    service_states: [ServiceState; SESSIONS],
    // In a box with its strings of locks, which are not to be moved with the device.
    locks: Box<LockTable, A>,
    instrument: Instrument,
}

/// The device with its store on a disk.
pub type Exec<D, A> = ExecOf<IdleStore<D, A>, A>;

impl<S: Idle, A: Allocator + Copy> Model for ExecOf<S, A> {
    ghost use Rattle.std.specs.Prelude.{is_none};
    ghost use Rattle.std.specs.Option.{ForSome};
    ghost use Rattle.psu_nv.specs.Contents.{items_of};
    ghost use Rattle.psu_exec.specs.Changed.{KeepsOthers};
    ghost use Rattle.psu_exec.specs.Consistent.{IsConsistent, HasEdits, flush_of};
    ghost use Rattle.psu_exec.specs.Device.{ExecOf, target};

    ghost Value = { ExecOf S };

    ghost view = { λ e. record {
      device = record {
        volatile = record { instrument = e.instrument; open_now = e.open_now; service_states = e.service_states; locks = e.locks.value };
        flush = flush_of e.limit e.contents e.map e.unflushed e.held e.store (is_none e.idle_store) e.waits;
      };
      idle_store = e.idle_store;
    } };

    ghost invariant = { λ e. HasEdits e.held e.map
        × IsConsistent (flush_of e.limit e.contents e.map e.unflushed e.held e.store (is_none e.idle_store) e.waits)
        × KeepsOthers e.touched (target (flush_of e.limit e.contents e.map e.unflushed e.held e.store (is_none e.idle_store) e.waits)) (items_of e.contents)
        × ForSome e.idle_store (λ s. S.belongs s e.store e.limit e.map) };
}

impl<D: Disk, A: Allocator + Copy> Exec<D, A> {
    ghost use Rattle.std.specs.Option.{ForSome};
    ghost use Rattle.psu_exec.specs.declared.idle_store.IdleStore.TheVariants as when_idle;
    ghost use Rattle.psu_exec.specs.Exec.{IsEnd};
    ghost use Rattle.psu_exec.specs.Jobs.{IsStoreOf};

    /// Powers on with the contents that the store holds. The registers are as IEEE 488.2 prescribes: only PON is set,
    /// and the enables keep their values exactly if the power-on status clear flag is false. The cause of an error is
    /// `BadItems` exactly if the items encode no contents.
    pub fn power_on(alloc: A, store: Store<D, A>) -> Result<Exec<D, A>, PowerFault<D, A>>
        ensures state { IfOk result (λ e. e.device ≡ power_on store.limit e.device.flush.contents) }
        ensures found { IfOk result (λ e. items_of e.device.flush.contents ≡ store.items) }
        ensures only { IfOk result (λ e. (c : Kept) → IsContents c → items_of c ≡ store.items → c ≡ e.device.flush.contents) }
        ensures sound { IfOk result (λ e. IsContents e.device.flush.contents) }
        ensures fitting { IfOk result (λ e. fits store.limit e.device.flush.contents ≡ true) }
        // As IEEE 488.2 prescribes: 96 exactly if the enables are kept with SRE bit 5 and ESE bit 7 set, else none.
        ensures request { IfOk result (λ e. first_request e.device.volatile.instrument.status ≡ prescribed e.device.flush.contents.enables) }
        ensures idle_store { IfOk result (λ e. e.idle_store ≡ Some (when_idle.Whole store)) }

        ensures back { IfErr result (λ f. f.store ≡ store) }
        ensures bad { IfErr result (λ f. f.cause ≡ PowerCause.BadItems → AreBad store.limit store.items) }
        ensures memory { IfErr result (λ f. f.cause ≡ PowerCause.Memory → (c : Kept) × IsContents c × (items_of c ≡ store.items)) }
    {
        let contents = match Contents::decode_items(alloc, store.items()) {
            Ok(contents) => contents,
            Err(fault) => return Err(PowerFault {
                cause: cause_of(fault),
                store,
            }),
        };
        if !contents.fits(store.limit()) {
            return Err(PowerFault {
                cause: PowerCause::BadItems,
                store,
            });
        }
        match parts_at_rest(alloc, store.items()) {
            Ok((map, locks)) => Ok(Exec::at_power_on(alloc, contents, map, locks, store)),
            Err(AllocError) => Err(PowerFault {
                cause: PowerCause::Memory,
                store,
            }),
        }
    }

    // The state at power-on, with the contents that the store holds.
    fn at_power_on(
        alloc: A,
        contents: Contents<A>,
        map: Plan<A>,
        locks: Box<LockTable, A>,
        store: Store<D, A>,
    ) -> Exec<D, A>
        requires sound { IsContents contents }
        requires fitting { fits store.limit contents ≡ true }
        requires stored { store.items ≡ items_of contents }
        requires map { map.map ≡ store.items }
        requires locks { locks.value ≡ no_locks [] }
        ensures { result ≡ record { device = power_on store.limit contents; idle_store = Some (when_idle.Whole store) } }
    {
        let instrument = Instrument::power_on(&contents);
        Exec {
            alloc,
            limit: store.limit(),
            contents,
            map,
            unflushed: 0,
            held: None,
            touched: ChangedParts::none(),
            store: Condition::Whole,
            idle_store: Some(IdleStore::Whole(store)),
            waits: [None; SESSIONS],
            open_now: [false; SESSIONS],
            service_states: [initial_service_state(); SESSIONS],
            locks,
            instrument,
        }
    }

    /// The condition of the store: whether it can take a commit. A store that the `Exec` holds is a broken one exactly if
    /// the condition is `Broken`, and it has the state's limit and map; a broken one has the batch to the target too.
    pub fn condition(&self) -> Condition
        ensures value { result ≡ self.now.device.flush.store }
        ensures stored { ForSome self.now.idle_store (IsStoreOf self.now.device.flush) }
    {
        self.store
    }

    /// Ends the `Exec`: returns its store, or the whole `Exec` if a job is out.
    pub fn end(self) -> Ended<D, A>
        ensures { IsEnd self result }
    {
        if self.idle_store.is_none() {
            return Ended::Out(self);
        }
        let Exec { idle_store, .. } = self;
        match idle_store {
            Some(IdleStore::Whole(store)) => Ended::Whole(store),
            Some(IdleStore::Failed(broken)) => Ended::Failed(broken),
            None => unreachable!(),
        }
    }
}

impl<S: Idle, A: Allocator + Copy> ExecOf<S, A> {
    /// Whether a session is open.
    pub fn is_open(&self, session: Session) -> bool
        ensures { result ≡ is_open self.now.device session }
    {
        self.open_now[session.place()]
    }

    /// The nonvolatile contents with all accepted changes: those of the store's map with the unflushed changes made.
    pub fn contents(&self) -> &Contents<A>
        ensures value { result.now ≡ self.now.device.flush.contents }
        ensures consistent { IsConsistent self.now.device.flush }
    {
        &self.contents
    }

    /// Whether all accepted changes are flushed.
    pub fn is_flushed(&self) -> bool
        ensures { result ≡ (self.now.device.flush.unflushed == 0) }
    {
        self.unflushed == 0
    }

    /// The service request that the instrument makes in its present state.
    pub fn first_request(&self) -> Option<u8>
        ensures { result ≡ first_request self.now.device.volatile.instrument.status }
    {
        self.instrument.first_request()
    }

    // The enabled bits of a session that has read its responses, and of one that has not.
    fn enabled(&self) -> Enabled
        ensures { result ≡ enabled_of self.now.device.volatile.instrument.status }
    {
        Enabled {
            read: self.instrument.enabled(false),
            unread: self.instrument.enabled(true),
        }
    }

    // Updates the RQS bits of all sessions after a step that changed their enabled bits, which were `old` before it.
    fn follow(&mut self, old: Enabled)
        ensures { (before : State) → old ≡ enabled_of before.volatile.instrument.status
            → before.volatile.service_states ≡ self.old.device.volatile.service_states
            → self.new ≡ with_device self.old (followed before self.old.device) }
    {
        let new = self.enabled();
        follow(&mut self.service_states, old, new);
    }
}

// The map at power-on, which shares the values of the items, and the locks.
fn parts_at_rest<A: Allocator + Copy>(
    alloc: A,
    items: &Items<A>,
) -> Result<(Plan<A>, Box<LockTable, A>), AllocError>
    ensures map { IfOk result (λ parts. parts.0.map ≡ items.now) }
    ensures locks { IfOk result (λ parts. parts.1.value ≡ no_locks []) }
{
    let map = Plan::of(alloc, items.copy(alloc)?);
    let locks = Box::new(alloc, LockTable::new())?;
    Ok((map, locks))
}

// The cause of a failed power-on whose items could not be decoded.
fn cause_of(fault: DecodeFault) -> PowerCause
    ensures { result ≡ cause_of fault }
{
    match fault {
        DecodeFault::BadKey | DecodeFault::BadValue => PowerCause::BadItems,
        DecodeFault::Memory => PowerCause::Memory,
    }
}
