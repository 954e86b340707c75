//! Laws of directories, as functions that do nothing.

ghost use Rattle.std.specs.Prelude.{◌≡◌, ◌↔◌, ◌∷◌, [], All, List, ℕ, Result, length, ⊤};
ghost use Rattle.cpm_image.specs.declared.kind.DiskKind.{DiskKind};
ghost use Rattle.cpm_image.specs.declared.directory.layout.TheConstants.{ENTRY_BYTES};
ghost use Rattle.cpm_image.specs.Directory.Types.{Broken, DiskFault, Entry};
ghost use Rattle.cpm_image.specs.Directory.Entries.{bytes_of, entry_of};
ghost use Rattle.cpm_image.specs.Directory.Letters.{letters};
ghost use Rattle.cpm_image.specs.Directory.Rules.{AreBroken, IsFirstFault, IsJudged, IsSound};

use crate::{Entry, Name};

/// The bytes of an entry that was made from 32 bytes are the same 32 bytes. So an entry that nothing changes is kept byte for byte.
pub fn same_bytes()
    ensures { (bytes : List ℕ) → length bytes ≡ ENTRY_BYTES → bytes_of (entry_of bytes) ≡ bytes }
{}

/// A name has eleven bytes, each below 80H. (The law holds for a name, not for any bytes, so it takes one.)
pub fn is_name(name: &Name)
    ensures seven { letters name.now ≡ name.now }
    ensures eleven { length name.now ≡ 11 }
{
    let _bytes = name.bytes();
}

/// The name of an entry has eleven bytes.
fn is_entry(entry: &Entry)
    ensures { length entry.now.name ≡ 11 }
{
    let _value = *entry;
}

/// The name of each entry has eleven bytes. (The law holds for entries, not for any lists, so it takes them.)
pub fn are_entries(entries: &[Entry])
    ensures { All (λ e. length e.name ≡ 11) entries.now }
{
    for entry in entries {
        is_entry(entry);
    }
}

/// There is only one judgement of a directory of a format: it keeps its rules, or it has one first fault.
pub fn one_judgement()
    ensures { (kind : DiskKind) (entries : List Entry) (a b : Result ⊤ DiskFault) → IsJudged kind entries a → IsJudged kind entries b → a ≡ b }
{}

/// There is only one list of the entries of a directory that break a rule. It is empty exactly if the directory keeps its rules, and the
/// fault of its first entry is the first fault of the directory.
pub fn one_list_of_broken()
    ensures one { (kind : DiskKind) (entries : List Entry) (a b : List Broken) → AreBroken kind entries a → AreBroken kind entries b → a ≡ b }
    ensures none { (kind : DiskKind) (entries : List Entry) (broken : List Broken) → AreBroken kind entries broken → ((broken ≡ []) ↔ IsSound kind entries) }
    ensures first { (kind : DiskKind) (entries : List Entry) (broken : Broken) (rest : List Broken) → AreBroken kind entries (broken ∷ rest) → IsFirstFault kind entries broken.fault }
{}
