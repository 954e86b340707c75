//! Laws of system calls, as functions that do nothing.

ghost use Rattle.std.specs.Prelude.{◌≡◌, ℕ, List, Option, Result};
ghost use Rattle.z80_cpu.specs.declared.registers.Cpu.{Cpu};
ghost use Rattle.cpm_disk.specs.declared.control.stop.Stop.{Stop};
ghost use Rattle.cpm_bdos.specs.declared.outcome.After.{After};
ghost use Rattle.cpm_bdos.specs.System.{System};
ghost use Rattle.cpm_bdos.specs.Answer.{BiosAnswers, CallAnswers};
ghost use Rattle.cpm_bdos.specs.Alike.{AlikeSystems, HasNotFailed};

use cpm_console::Console;
use cpm_image::Sectors;

/// A system call has one answer. Two calls of systems that look alike, with the same registers and memory, answer the same, leave the same
/// registers and memory, and leave systems that look alike, unless one of them answers that the disk or the console failed.
pub fn one_answer<S: Sectors, C: Console>()
    ensures call { (viewed : Option (List ℕ × List ℕ)) (old other new there : System S C) (cpu shown seen : Cpu) (before now left : List ℕ) (result answer : Result After Stop) →
        AlikeSystems S.sectors C.dialog viewed old other → HasNotFailed result → HasNotFailed answer →
        CallAnswers S.sectors S.faults C.dialog old new cpu shown before now result → CallAnswers S.sectors S.faults C.dialog other there cpu seen before left answer →
        (answer ≡ result) × (seen ≡ shown) × (left ≡ now) × AlikeSystems S.sectors C.dialog viewed new there }
    ensures entry { (viewed : Option (List ℕ × List ℕ)) (old other new there : System S C) (number : ℕ) (cpu shown seen : Cpu) (result answer : Result After Stop) →
        AlikeSystems S.sectors C.dialog viewed old other → HasNotFailed result → HasNotFailed answer →
        BiosAnswers C.dialog old new number cpu shown result → BiosAnswers C.dialog other there number cpu seen answer →
        (answer ≡ result) × (seen ≡ shown) × AlikeSystems S.sectors C.dialog viewed new there }
{}
