//! The labels of a program by their addresses.

ghost use Rattle.std.specs.Prelude.{◌≡◌, ◌<◌, ◌++◌, ℕ, suc, IfOk, OnOk, length, map, slice_index};
ghost use Rattle.std.specs.Option.{option_map};
ghost use Rattle.state_text.specs.Labelled.{address_of_label, first_named, is_in_program, label_up_to, last_label_at, nearest_label, offset_text, parts_of, symbol_parts, target_label};
ghost use Rattle.state_text.specs.Private.Numbers.{AreNumbersIfAny, last_at, last_below};

use crate::registers::is_same_name;
use std::alloc::{AllocError, Global};
use std::marker::Model;

/// How many addresses there are.
const ADDRESSES: usize = 65_536;

/// The address of the first byte of a program.
const FIRST_ADDRESS: usize = 0x0100;

/// A name of the program's labels file, with its address.
#[derive(Clone, Copy, Debug)]
pub struct Symbol<'a> {
    pub address: u16,
    pub name: &'a [u8],
}

/// A label of the program.
#[derive(Drop)]
struct Named {
    address: u16,
    name: Vec<u8>,
}

/// The labels of a program, by their addresses, and the number of its bytes.
#[derive(Drop)]
pub struct Labels {
    labels: Vec<Named>,
    /// For each address the number of its label, from 1, or 0 if it has none. Empty if there are no labels: to fill the table takes longer
    /// than many runs.
    numbers: Vec<usize>,
    size: usize,
}

impl Model for Labels {
    ghost use Rattle.std.specs.Prelude.{map};
    ghost use Rattle.state_text.specs.Labelled.{Known, parts_of};
    ghost use Rattle.state_text.specs.Private.Numbers.{AreNumbersIfAny};

    ghost Value = { Known };

    ghost view = { λ l. record { labels = map parts_of l.labels.items; size = l.size } };

    ghost invariant = { λ l. AreNumbersIfAny (map parts_of l.labels.items) l.numbers.items };
}

/// Copies labels.
fn owned(alloc: Global, symbols: &[Symbol<'_>]) -> Result<Vec<Named>, AllocError>
    ensures { IfOk result (λ named. map parts_of named.items ≡ map symbol_parts symbols.now) }
{
    let mut named = Vec::with_capacity(alloc, symbols.len())?;
    for symbol in symbols {
        let address = symbol.address;
        let name = Vec::from_slice(alloc, symbol.name)?;
        named.push(Named { address, name })?;
    }
    Ok(named)
}

/// For each address the number of the last label there, from 1, or 0 if there is none.
fn last_numbers(alloc: Global, labels: &[Named]) -> Result<Vec<usize>, AllocError>
    ensures size { IfOk result (λ numbers. length numbers.items ≡ ADDRESSES) }
    ensures each { IfOk result (λ numbers. (address : ℕ) → address < ADDRESSES → slice_index numbers.items address ≡ last_at 0 0 (map parts_of labels.now) address) }
{
    let mut numbers = vec![in alloc; 0; ADDRESSES]?;
    let mut number = 0;
    let mut rest = labels;
    while let Some((label, behind)) = rest.split_first() {
        number += 1;
        numbers[label.address as usize] = number;
        rest = behind;
    }
    Ok(numbers)
}

/// Gives each address without a number that of the address below.
fn fill(numbers: &mut [usize])
    ensures { (address : ℕ) → address < length numbers.old → slice_index numbers.new address ≡ last_below (slice_index numbers.old) (suc address) }
{
    let mut last = 0;
    for number in numbers.iter_mut() {
        if *number == 0 {
            *number = last;
        }
        last = *number;
    }
}

/// For each address the number of its label, if there are labels.
fn all_numbers(alloc: Global, labels: &[Named]) -> Result<Vec<usize>, AllocError>
    ensures { IfOk result (λ numbers. AreNumbersIfAny (map parts_of labels.now) numbers.items) }
{
    if labels.is_empty() {
        return Ok(Vec::new(alloc));
    }
    let mut numbers = last_numbers(alloc, labels)?;
    fill(&mut numbers);
    Ok(numbers)
}

/// The address of the first of these labels with this name, in upper or lower case.
fn first_named(labels: &[Named], name: &[u8]) -> Option<u16>
    ensures { result ≡ first_named (map parts_of labels.now) name.now }
{
    for label in labels {
        if is_same_name(&label.name, name) {
            return Some(label.address);
        }
    }
    None
}

impl Labels {
    /// The labels of a program of `size` bytes, in any order.
    ///
    /// # Errors
    ///
    /// [`AllocError`] if memory runs out.
    pub fn new(alloc: Global, symbols: &[Symbol<'_>], size: usize) -> Result<Labels, AllocError>
        ensures { IfOk result (λ known. known ≡ record { labels = map symbol_parts symbols.now; size = size }) }
    {
        let labels = owned(alloc, symbols)?;
        let numbers = all_numbers(alloc, &labels)?;
        Ok(Labels {
            labels,
            numbers,
            size,
        })
    }

    /// Whether an address is that of a byte of the program.
    pub fn has(&self, address: u16) -> bool
        ensures { result ≡ is_in_program self.now.size address }
    {
        let address = address as usize;
        address >= FIRST_ADDRESS && address - FIRST_ADDRESS < self.size
    }

    /// The nearest label of an address: of the labels that are not above it, the last one at their highest address.
    fn up_to(&self, address: u16) -> Option<&Named>
        ensures { option_map (λ label. parts_of label.now) result ≡ label_up_to self.now.labels address }
    {
        if self.labels.is_empty() {
            return None;
        }
        let number = self.numbers[address as usize];
        if number == 0 {
            return None;
        }
        self.labels.get(number - 1)
    }

    /// The nearest label of an address of the program, and how many bytes after it the address is.
    pub fn find(&self, address: u16) -> Option<(&[u8], u16)>
        ensures { option_map (λ found. (found.0.now, found.1)) result ≡ nearest_label self.now address }
    {
        if !self.has(address) {
            return None;
        }
        let label = self.up_to(address)?;
        Some((&label.name, address.saturating_sub(label.address)))
    }

    /// The last label at just this address.
    fn at(&self, address: u16) -> Option<&Named>
        ensures { option_map (λ label. parts_of label.now) result ≡ last_label_at address self.now.labels }
    {
        let label = self.up_to(address)?;
        if label.address == address {
            Some(label)
        } else {
            None
        }
    }

    /// The label with which a debugger prints an address: of one of the program, the nearest; of another, the last one at just that address.
    pub fn target(&self, address: u16) -> Option<(&[u8], u16)>
        ensures { option_map (λ found. (found.0.now, found.1)) result ≡ target_label self.now address }
    {
        if self.has(address) {
            return self.find(address);
        }
        let label = self.at(address)?;
        Some((&label.name, address.saturating_sub(label.address)))
    }

    /// The address of the first label with this name, in upper or lower case.
    pub fn address_of(&self, name: &[u8]) -> Option<u16>
        ensures { result ≡ address_of_label self.now name.now }
    {
        first_named(&self.labels, name)
    }
}

/// Appends a label and the distance from it in decimal, as in `START+5`.
///
/// # Errors
///
/// [`AllocError`] if memory runs out.
pub fn put_label(
    alloc: Global,
    text: &mut Vec<u8>,
    name: &[u8],
    offset: u16,
) -> Result<(), AllocError>
    ensures { OnOk result (text.new.items ≡ text.old.items ++ name.now ++ offset_text offset) }
{
    text.extend_from_slice(name)?;
    if offset == 0 {
        return Ok(());
    }
    text.extend_from_slice(format!(in alloc; "+{offset}")?.as_bytes())
}
