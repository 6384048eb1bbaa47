//! The responses of the instrument.
ghost use Rattle.std.specs.Prelude.{◌≡◌, ◌⊎◌, IfErr, IfOk, IfSome, List, None, Some, [], ℕ};
ghost use Rattle.psu_run.specs.Results.{DoesNotStart, WritesTo};
ghost use Rattle.psu_run.specs.Lines.{IsTooLong};
ghost use Rattle.psu_guide.specs.Plays.{CannotAnswer, IsNew, Plays, holding};

use crate::play_fault::PlayFault;
use psu_disk::{Disk, MemDisk};
use psu_examples::Player;
use psu_items::{IMAGE_LIMIT, IMAGE_SIZE, Store};
use psu_run::{RunCause, RunStart, run};
use std::alloc::Allocator;

// Returns a new image in memory; `None` where memory is refused.
fn new_image<A: Allocator + Copy>(alloc: A) -> Option<MemDisk<A>>
    ensures { IfSome result (λ disk. IsNew (⟦<MemDisk<A> as Disk>⟧.state disk)) }
{
    let Ok(disk) = MemDisk::new(alloc, IMAGE_SIZE) else {
        return None;
    };
    let Ok(store) = Store::format(alloc, disk, IMAGE_LIMIT) else {
        return None;
    };
    Some(store.into_disk())
}

// Returns what a run of these lines on a disk writes, or why it ends early.
fn written<D: Disk + Drop, A: Allocator + Copy>(
    alloc: A,
    sent: &[u8],
    disk: D,
) -> Result<Vec<u8, A>, RunCause>
    ensures whole { IfOk result (λ text. (over : D)
        × WritesTo D.honest None (D.state disk).bytes (Some sent.now) (D.failures disk) (D.failures over) (holding []) (holding text.items) (D.state over)) }
    ensures early { IfErr result (λ cause. (over : D) × (rest : List ℕ) × (text : List ℕ)
        × (DoesNotStart D.honest cause (D.failures disk) (D.failures over) (Some sent.now) (Some rest) (holding []) (holding text) (D.state disk) (D.state over)
        ⊎ WritesTo D.honest (Some cause) (D.state disk).bytes (Some sent.now)
        (D.failures disk) (D.failures over) (holding []) (holding text) (D.state over))
        × (cause ≡ RunCause.TooLong → IsTooLong (Some sent.now) (Some rest) None None)) }
{
    let mut reader = sent;
    let mut text = Vec::new(alloc);
    match run(alloc, &mut reader, &mut text, RunStart::Image(disk)) {
        Ok(_over) => Ok(text),
        Err(fault) => Err(fault.cause),
    }
}

/// An instrument that begins each example on a new image in memory.
pub struct NewInstrument;

impl<A: Allocator + Copy> Player<A> for NewInstrument {
    type Fault = PlayFault;

    ghost plays = { Plays };

    ghost stops = { CannotAnswer };

    fn play(&self, alloc: A, sent: &[u8]) -> Result<Vec<u8, A>, PlayFault> {
        let Some(disk) = new_image(alloc) else {
            return Err(PlayFault::Memory);
        };
        match written(alloc, sent, disk) {
            Ok(text) => Ok(text),
            Err(cause) => Err(PlayFault::Run(cause)),
        }
    }
}
