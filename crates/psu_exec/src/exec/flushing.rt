//! Jobs: what they flush, and the effect of their ends.
ghost use Rattle.std.specs.Prelude.{◌≡◌, ◌↔◌, IsTrue, IfOk, IfErr, IfSome, IfNone, OnOk, OnErr, OnSome, true, false, None, Some};
ghost use Rattle.psu_map.specs.Batch.{changed};
ghost use Rattle.psu_exec.specs.Batch.{batch};
ghost use Rattle.psu_exec.specs.Device.{target};
ghost use Rattle.psu_exec.specs.Calls.{Allows, broken, ended, job_of, job_out, kept, target_flushed, worn, GivesBack, IsExpected};
ghost use Rattle.psu_exec.specs.Calls.Entry.{Took, GaveBack};
ghost use Rattle.psu_exec.specs.Shown.{over_of};
ghost use Rattle.psu_exec.specs.declared.idle_store.Condition.TheVariants as Condition;

use crate::comparison::same_edits;
use crate::difference::difference;
use crate::idle_store::{idle_store_after, put_store_back};
use crate::job::Ending;
use crate::leading::leads_to;
use crate::waits::{all_cut_off, all_less, all_over};
use crate::{
    CannotDrop, ChangedParts, Condition, End, Exec, ExecOf, Finished, Idle, IdleStore, Job, NoJob,
    Planned, Reopening, Sessions, Stranger,
};
use psu_disk::Disk;
use psu_items::{Batch, Items, UnstartedCause, same_pairs};
use std::alloc::{AllocError, Allocator};

impl<D: Disk, A: Allocator + Copy> Exec<D, A> {
    ghost use Rattle.psu_exec.specs.Jobs.{IsStoreOf, finished_disk, finished_of, idle_store_of, job_data, job_store, taken_of};
    ghost use Rattle.psu_exec.specs.AcceptedEnd.{IsTrueOf};
    ghost use Rattle.psu_exec.specs.declared.job.Job.TheVariants as when;

    /// Takes a job: one that commits the present contents to a whole store, or one that reopens a broken store. All
    /// memory, also that for what is kept until the job's end, is allocated before any change.
    pub fn take(&mut self) -> Result<Job<D, A>, NoJob>
        ensures step { Allows self.old.device (Took (taken_of result)) self.new.device }
        ensures job { IfOk result (λ job. self.old.idle_store ≡ Some (job_store job)) }
        ensures away { OnOk result (self.new.idle_store ≡ None) }
        ensures same { OnErr result (self.new.device ≡ self.old.device) }
        ensures idle_store { OnErr result (self.new.idle_store ≡ self.old.idle_store) }
    {
        if self.idle_store.is_none() {
            return Err(NoJob::Out);
        }
        match self.store {
            Condition::Worn => return Err(NoJob::Nothing),
            Condition::Broken => return Ok(Job::Reopen(self.reopening())),
            Condition::Whole => {
                if self.unflushed == 0 {
                    return Err(NoJob::Nothing);
                }
                self.committing()
            }
        }
    }

    // Takes the broken store, to reopen it.
    #[inline(never)]
    fn reopening(&mut self) -> Reopening<D, A>
        requires broken { self.old.device.flush.store ≡ Condition.Broken }
        requires idle_store { self.old.device.flush.out ≡ false }
        ensures is { self.new.device ≡ record self.old.device { flush = job_out self.old.device.flush } }
        ensures away { self.new.idle_store ≡ None }
        ensures job { self.old.idle_store ≡ Some (job_store (when.Reopen result)) }
        ensures data { job_data (when.Reopen result) ≡ job_of (job_out self.old.device.flush) }
    {
        match self.idle_store.take() {
            Some(IdleStore::Failed(broken)) => Reopening {
                alloc: self.alloc,
                broken,
                duty: CannotDrop::begin(),
            },
            Some(IdleStore::Whole(_)) => unreachable!(),
            None => unreachable!(),
        }
    }

    // Takes the whole store, to commit the contents to it. Files are compared in place, and copied if they have changed.
    #[inline(never)]
    fn committing(&mut self) -> Result<Job<D, A>, NoJob>
        requires whole { self.old.device.flush.store ≡ Condition.Whole }
        requires idle_store { self.old.device.flush.out ≡ false }
        ensures is { OnOk result (self.new.device ≡ record self.old.device { flush = job_out self.old.device.flush }) }
        ensures away { OnOk result (self.new.idle_store ≡ None) }
        ensures job { IfOk result (λ job. self.old.idle_store ≡ Some (job_store job)) }
        ensures data { IfOk result (λ job. job_data job ≡ job_of (job_out self.old.device.flush)) }
        ensures memory { IfErr result (λ cause. cause ≡ NoJob.Memory) }
        ensures same { OnErr result (self.new ≡ self.old) }
    {
        let Ok(edits) = difference(self.alloc, &self.map, &self.contents, &self.touched) else {
            return Err(NoJob::Memory);
        };
        let Ok(planned) = edits.copy(self.alloc) else {
            return Err(NoJob::Memory);
        };
        let Ok(()) = self.map.set(planned) else {
            return Err(NoJob::Memory);
        };
        self.touched = ChangedParts::none();
        self.held = Some(self.unflushed);
        match self.idle_store.take() {
            Some(IdleStore::Whole(store)) => Ok(Job::Commit(Planned::new(
                self.alloc, store, edits,
            ))),
            Some(IdleStore::Failed(_)) => unreachable!(),
            None => unreachable!(),
        }
    }

    /// Gives back a finished job. It is accepted if a job is out and its limit, maps and batch are the expected ones;
    /// the sessions whose wait is then over are returned. Otherwise it is handed back, and nothing has changed.
    pub fn give_back(&mut self, finished: Finished<D, A>) -> Result<Sessions, Stranger<D, A>>
        ensures step { Allows self.old.device (GaveBack (finished_of finished.end) (over_of result)) self.new.device }
        // Each possible crash image of its disk represents the map that the result states; for a broken store, the
        // map before or the target.
        ensures stands { D.honest → OnOk result (IsTrueOf (target self.old.device.flush) (finished_of finished.end) (D.state (finished_disk finished.end))) }
        ensures idle_store { OnOk result (self.new.idle_store ≡ Some (idle_store_of finished.end)) }
        ensures free { OnOk result (self.new.device.flush.out ≡ false) }
        ensures stranger { IfErr result (λ s. s.finished ≡ finished) }
        ensures same { OnErr result (self.new.idle_store ≡ self.old.idle_store) }
    {
        let Some(ending) = self.ending_of(&finished.end) else {
            return Err(Stranger { finished });
        };
        self.end_job(ending, idle_store_after(finished));
        Ok(all_over(&self.waits))
    }

    // The ending of a finished job; none if no job is out, or if its limit, its maps or its batch are not the expected
    // ones.
    fn ending_of(&self, end: &End<D, A>) -> Option<Ending>
        ensures out { OnSome result (self.now.device.flush.out ≡ true) }
        ensures expected { OnSome result (IsExpected self.now.device.flush (finished_of end.now)) }
        ensures ends { IfSome result (λ e. GivesBack self.now.device (finished_of end.now) (ended self.now.device e)) }
        ensures stands { D.honest → OnSome result (IsTrueOf (target self.now.device.flush) (finished_of end.now) (D.state (finished_disk end.now))) }
        ensures stranger { IfNone result (self.now.device.flush.out ≡ true → IsExpected self.now.device.flush (finished_of end.now) → ⊥) }
    {
        match end {
            End::Stored(store) => {
                if self.is_target(store.limit(), store.items()) {
                    return Some(Ending::Flushed);
                }
                None
            }
            End::Unstarted(store, batch, cause) => {
                if !self.is_job(store.limit(), store.items(), batch) {
                    return None;
                }
                match cause {
                    UnstartedCause::Memory => return Some(Ending::Kept),
                    UnstartedCause::Worn => return Some(Ending::Worn),
                }
            }
            End::Broken(broken) => {
                if self.is_job(broken.limit(), broken.before(), broken.batch()) {
                    return Some(Ending::Broken);
                }
                None
            }
            End::Reopened(store) => {
                if self.is_target(store.limit(), store.items()) {
                    return Some(Ending::Flushed);
                }
                if self.is_before(store.limit(), store.items()) {
                    return Some(Ending::Kept);
                }
                None
            }
        }
    }

    // Ends the job that is out with this ending, and puts its store into its place.
    fn end_job(&mut self, ending: Ending, store: IdleStore<D, A>)
        requires out { self.old.device.flush.out ≡ true }
        requires store { IsStoreOf (ended self.old.device ending).flush store }
        ensures device { self.new.device ≡ ended self.old.device ending }
        ensures idle_store { self.new.idle_store ≡ Some store }
    {
        match ending {
            Ending::Flushed => {
                let old = self.enabled();
                self.flush_target(store);
                self.follow(old);
            }
            Ending::Kept => self.keep(store),
            Ending::Broken => self.break_off(store),
            Ending::Worn => self.wear_out(store),
        }
    }

    // Marks the target's changes as flushed, and no others.
    fn flush_target(&mut self, store: IdleStore<D, A>)
        requires out { self.old.device.flush.out ≡ true }
        requires store { IsStoreOf (target_flushed self.old.device).flush store }
        ensures { self.new ≡ record { device = target_flushed self.old.device; idle_store = Some store } }
    {
        let Some(k) = self.held else { unreachable!() };
        self.instrument.flush(k);
        self.map.make();
        self.unflushed -= k;
        all_less(&mut self.waits, k);
        self.held = None;
        self.store = Condition::Whole;
        put_store_back(&mut self.idle_store, store);
    }

    // Ends the job with nothing flushed and the store whole. Each part may then differ from the store's map.
    fn keep(&mut self, store: IdleStore<D, A>)
        requires out { self.old.device.flush.out ≡ true }
        requires store { IsStoreOf (kept self.old.device.flush) store }
        ensures { self.new ≡ record { device = record self.old.device { flush = kept self.old.device.flush }; idle_store = Some store } }
    {
        self.held = None;
        self.touched = ChangedParts::all();
        self.store = Condition::Whole;
        put_store_back(&mut self.idle_store, store);
    }

    // Marks the store as broken, and keeps its target.
    fn break_off(&mut self, store: IdleStore<D, A>)
        requires out { self.old.device.flush.out ≡ true }
        requires store { IsStoreOf (broken self.old.device.flush) store }
        ensures { self.new ≡ record { device = record self.old.device { flush = broken self.old.device.flush }; idle_store = Some store } }
    {
        all_cut_off(&mut self.waits);
        self.store = Condition::Broken;
        put_store_back(&mut self.idle_store, store);
    }

    // Ends the job with nothing flushed; the store accepts no further commit.
    fn wear_out(&mut self, store: IdleStore<D, A>)
        requires out { self.old.device.flush.out ≡ true }
        requires store { IsStoreOf (worn self.old.device.flush) store }
        ensures { self.new ≡ record { device = record self.old.device { flush = worn self.old.device.flush }; idle_store = Some store } }
    {
        all_cut_off(&mut self.waits);
        self.held = None;
        self.touched = ChangedParts::all();
        self.store = Condition::Worn;
        put_store_back(&mut self.idle_store, store);
    }
}

impl<S: Idle, A: Allocator + Copy> ExecOf<S, A> {
    // Whether a job is out whose target is this map, on a store of this limit.
    fn is_target(&self, limit: u16, map: &Items<A>) -> bool
        ensures { IsTrue result ↔ ((self.now.device.flush.out ≡ true) × (limit ≡ self.now.device.flush.limit) × (map.now ≡ target self.now.device.flush)) }
    {
        if self.idle_store.is_some() || limit != self.limit {
            return false;
        }
        leads_to(&self.map, map)
    }

    // Whether a job is out that began at this map, on a store of this limit.
    fn is_before(&self, limit: u16, map: &Items<A>) -> bool
        ensures { IsTrue result ↔ ((self.now.device.flush.out ≡ true) × (limit ≡ self.now.device.flush.limit) × (map.now ≡ self.now.device.flush.before)) }
    {
        self.idle_store.is_none()
            && limit == self.limit
            && same_pairs(map.pairs(), self.map.pairs())
    }

    // Whether a job is out that began at this map with this batch, on a store of this limit.
    fn is_job(&self, limit: u16, before: &Items<A>, edits: &Batch<A>) -> bool
        ensures is { IsTrue result ↔ ((self.now.device.flush.out ≡ true) × (limit ≡ self.now.device.flush.limit)
            × (before.now ≡ self.now.device.flush.before)
            × (edits.now ≡ batch self.now.device.flush.before (target self.now.device.flush))) }
        ensures leads { IsTrue result → changed before.now edits.now ≡ target self.now.device.flush }
    {
        self.idle_store.is_none()
            && limit == self.limit
            && same_pairs(before.pairs(), self.map.pairs())
            && same_edits(edits, self.map.edits())
    }
}
