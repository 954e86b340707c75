//! Runs a program for somebody at a keyboard.

ghost use Rattle.std.specs.Prelude.{◌≡◌, ℕ, List};
ghost use Rattle.std.specs.List.{concat};
ghost use Rattle.z80dev_run.specs.Program.{IsPlayedRan, IsReadyToRun, IsReplayedRan};

use crate::running::Ready;
use cpm_image::MemoryImage;
use cpm_run::{Arrival, PlayEnd, Station};
use machine_history::Recorded;
use std::alloc::Global;

/// How a session ended, what it leaves, and the bytes that came.
#[derive(Drop)]
pub struct PlayedRan {
    pub end: PlayEnd,
    /// The number of steps.
    pub turns: u64,
    /// PC at the end: the address of the next instruction.
    pub pc: u16,
    /// The image of the disk.
    pub image: MemoryImage,
    /// Each byte that came, in order.
    pub arrivals: Vec<Arrival>,
}

impl PlayedRan {
    /// The bytes of the image as its file has them: the sectors, one after the other. Nothing is copied, so this cannot run out of
    /// memory.
    pub fn image_bytes(&self) -> &[u8]
        ensures { result.now ≡ concat self.now.image }
    {
        self.image.sectors().as_flattened()
    }
}

impl Ready<'_, '_> {
    /// Runs the program for somebody at a keyboard, for at most `steps` steps. What is typed before the start does not count.
    pub fn play<K: Station>(self, alloc: Global, station: &mut K, steps: u64) -> PlayedRan
        ensures { (program : List ℕ) (words : List (List ℕ)) (image input : List ℕ) → IsReadyToRun program words image input self.entry
            → IsPlayedRan program words image steps (K.seat station.old) result.end result.turns result.pc (concat result.image) result.arrivals.items (K.seat station.new) }
    {
        let Ready {
            program,
            words,
            disk,
            typed: _,
        } = self;
        let played = cpm_run::play(alloc, program, &words, disk, station, steps);
        PlayedRan {
            end: played.end,
            turns: played.turns,
            pc: played.pc,
            image: played.disk.unmount(),
            arrivals: played.arrivals,
        }
    }

    /// Runs the program again as in the session of a record, for at most `steps` steps. The station is only shown what the program puts.
    pub fn replay<K: Station>(
        self,
        alloc: Global,
        recorded: &Recorded,
        station: &mut K,
        steps: u64,
    ) -> PlayedRan
        ensures { (program : List ℕ) (words : List (List ℕ)) (image input : List ℕ) → IsReadyToRun program words image input self.entry
            → IsReplayedRan program words image steps recorded.now.arrivals.items recorded.now.last (K.seat station.old) result.end result.turns result.pc (concat result.image) result.arrivals.items (K.seat station.new) }
    {
        let Ready {
            program,
            words,
            disk,
            typed: _,
        } = self;
        let played = cpm_run::replay(
            alloc,
            program,
            &words,
            disk,
            &recorded.arrivals,
            recorded.last,
            station,
            steps,
        );
        PlayedRan {
            end: played.end,
            turns: played.turns,
            pc: played.pc,
            image: played.disk.unmount(),
            arrivals: played.arrivals,
        }
    }
}
