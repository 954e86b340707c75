//! Searches the directory.

ghost use Rattle.std.specs.Prelude.{◌≡◌, ◌<◌, ◌+◌, IfSome};
ghost use Rattle.cpm_image.specs.Kind.{entry_count};
ghost use Rattle.cpm_bdos.specs.Files.Searching.{SearchesFirst, search_answer, next_found, next_search, searched, sought_by, sought_judged, with_directory_record, with_searched};

use crate::files::opening::code_of;
use crate::files::search::{Search, Sought};
use cpm_disk::{Disk, Fcb, Pattern, QUESTION, Stop, put_bytes, put_field};
use cpm_image::{ENTRY_BYTES, RECORD_ENTRIES, Sectors};
use z80_cpu::Memory;

/// Function 17: searches for the first directory entry that matches a file control block, and copies the four entries of its record to
/// the DMA buffer.
///
/// # Errors
///
/// [`Stop::UnknownDrive`], [`Stop::BadFcb`] for the drive; `?` is a good drive here.
pub fn search_first<S: Sectors>(
    disk: &Disk<S>,
    user: u8,
    dma: u16,
    search: &mut Option<Search>,
    memory: &mut Memory,
    address: u16,
) -> Result<u16, Stop>
    ensures { SearchesFirst S.sectors disk.now user dma address search.old search.new memory.old memory.new result }
{
    let fcb = Fcb::at(memory, address);
    judge_sought(&fcb)?;
    *search = searched(disk, sought_by(&fcb), user, 0);
    put_searched(disk, dma, memory, *search);
    Ok(answer_of(*search))
}

/// Function 18: searches for the next entry after the last one found. If there is none, the search ends. The answer is FFH then, and also
/// if there is no search.
pub fn search_next<S: Sectors>(
    disk: &Disk<S>,
    dma: u16,
    search: &mut Option<Search>,
    memory: &mut Memory,
) -> u16
    ensures next { search.new ≡ next_search S.sectors disk.now search.old }
    ensures buffer { memory.new ≡ with_searched S.sectors disk.now dma search.new memory.old }
    ensures value { result ≡ search_answer search.new }
{
    if let Some(last) = *search {
        *search = searched(disk, last.sought, last.user, last.next());
        put_searched(disk, dma, memory, *search);
    }
    answer_of(*search)
}

/// Tests the drive of a search; `?` is a good one.
fn judge_sought(fcb: &Fcb) -> Result<(), Stop>
    ensures { result ≡ sought_judged fcb.now }
{
    if fcb.drive() == QUESTION {
        Ok(())
    } else {
        fcb.judge_drive()
    }
}

/// What a file control block searches for: every entry if its drive is `?`; otherwise the entries with its name and EX. S2 is taken as 0,
/// but an EX of `?` matches every EX and S2.
fn sought_by(fcb: &Fcb) -> Sought
    ensures { result ≡ sought_by fcb.now }
{
    if fcb.drive() == QUESTION {
        return Sought::Every;
    }
    let extent = fcb.extent();
    let high = if extent == QUESTION { QUESTION } else { 0 };
    Sought::Matching(Pattern {
        name: fcb.name(),
        extent,
        high,
    })
}

/// The search after it finds the first entry from number `from` on; `None` if there is none.
fn searched<S: Sectors>(disk: &Disk<S>, sought: Sought, user: u8, from: u16) -> Option<Search>
    ensures search { result ≡ searched S.sectors disk.now sought user from }
    ensures within { IfSome result (λ s. s.found < entry_count disk.now.kind) }
{
    match next_found(disk, &sought, user, from) {
        Some(found) => Some(Search {
            sought,
            user,
            found: found as u8,
        }),
        None => None,
    }
}

/// The first entry from number `from` on that the search looks for.
fn next_found<S: Sectors>(disk: &Disk<S>, sought: &Sought, user: u8, from: u16) -> Option<u16>
    ensures found { result ≡ next_found S.sectors disk.now sought.now user from }
    ensures within { IfSome result (λ k. k < entry_count disk.now.kind) }
    ensures byte { IfSome result (λ k. k < 256) }
{
    match sought {
        Sought::Matching(pattern) => disk.find(user, pattern, from),
        Sought::Every => {
            if from < disk.kind().entry_count() {
                Some(from)
            } else {
                None
            }
        }
    }
}

/// Copies the directory record with the entry that was found, which has four entries, to the DMA buffer.
fn put_searched<S: Sectors>(disk: &Disk<S>, dma: u16, memory: &mut Memory, search: Option<Search>)
    requires { IfSome search (λ s. s.found < entry_count disk.now.kind) }
    ensures { memory.new ≡ with_searched S.sectors disk.now dma search memory.old }
{
    if let Some(search) = search {
        put_record(
            disk,
            dma,
            memory,
            u16::from(search.found) / RECORD_ENTRIES * RECORD_ENTRIES,
        );
    }
}

/// Copies four directory entries to the DMA buffer.
fn put_record<S: Sectors>(disk: &Disk<S>, dma: u16, memory: &mut Memory, first: u16)
    requires { first + 3 < entry_count disk.now.kind }
    ensures { memory.new ≡ with_directory_record S.sectors disk.now dma first memory.old }
{
    put_bytes(memory, dma, &disk.entry(first));
    put_field(memory, dma, ENTRY_BYTES as u16, &disk.entry(first + 1));
    put_field(
        memory,
        dma,
        (2 * ENTRY_BYTES) as u16,
        &disk.entry(first + 2),
    );
    put_field(
        memory,
        dma,
        (3 * ENTRY_BYTES) as u16,
        &disk.entry(first + 3),
    );
}

/// What a search answers: the number modulo 4 of the entry that it found, or FFH.
fn answer_of(search: Option<Search>) -> u16
    ensures { result ≡ search_answer search }
{
    match search {
        Some(search) => code_of(Some(u16::from(search.found))),
        None => code_of(None),
    }
}
