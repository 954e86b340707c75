//! Laws about the sectors of records, as functions that do nothing.

ghost use Rattle.std.specs.Prelude.{◌≡◌, ◌<◌, ℕ};
ghost use Rattle.cpm_image.specs.Kind.{record_count};
ghost use Rattle.cpm_image.specs.Skew.{sector_of};
ghost use Rattle.cpm_image.specs.declared.kind.DiskKind.{DiskKind};

/// No two logical records of a disk are in the same sector.
pub fn distinct_sectors()
    ensures { (kind : DiskKind) (m n : ℕ) → m < record_count kind → n < record_count kind → sector_of kind m ≡ sector_of kind n → m ≡ n }
{}
