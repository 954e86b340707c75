//! Laws of the commands on disks, as functions that do nothing.

ghost use Rattle.std.specs.Prelude.{◌≡◌, ◌++◌, ◌-◌, ◌*◌, ◌==◌, ℕ, List, false, length, replicate, true};
ghost use Rattle.std.specs.List.{list_any};
ghost use Rattle.cpm_image.specs.declared.format.TheConstants.{RECORD_BYTES};
ghost use Rattle.cpm_image.specs.declared.kind.DiskKind.{DiskKind};
ghost use Rattle.cpm_image.specs.Directory.Searches.{size};
ghost use Rattle.cpm_disk.specs.Image.{Image, directory};
ghost use Rattle.z80dev_disk.specs.Disks.{one_file};
ghost use Rattle.z80dev_disk.specs.Get.{got};
ghost use Rattle.z80dev_disk.specs.Put.{HasFile, records_to_put};
ghost use Rattle.z80dev_disk.specs.Text.{cpm_text, host_text};

/// A file that was put on a disk comes back with `get`, padded with 1AH to whole records.
pub fn put_is_gotten()
    ensures { (kind : DiskKind) (old new : Image) (user : ℕ) (name file : List ℕ) → HasFile kind old new user name file
        → got kind new user name false (size user name (directory kind new)) ≡ one_file (file ++ replicate (RECORD_BYTES * records_to_put file - length file) 0x1A) }
{}

/// A text without 1AH comes back unchanged from its form of CP/M, whatever number of bytes 1AH follows.
pub fn text_comes_back()
    ensures { (text : List ℕ) (n : ℕ) → list_any (λ b. b == 0x1A) text ≡ false → host_text (cpm_text text ++ replicate n 0x1A) ≡ text }
{}

/// A text without 1AH that was put on a disk as a text comes back unchanged as a text.
pub fn text_is_gotten()
    ensures { (kind : DiskKind) (old new : Image) (user : ℕ) (name text : List ℕ) → list_any (λ b. b == 0x1A) text ≡ false
        → HasFile kind old new user name (cpm_text text) → got kind new user name true (size user name (directory kind new)) ≡ one_file text }
{}
