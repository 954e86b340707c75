//! The labels of a program, by the labels of its file.

ghost use Rattle.std.specs.Prelude.{◌≡◌, IfOk, map};
ghost use Rattle.std.specs.Option.{option_map};
ghost use Rattle.state_text.specs.Labelled.{is_in_program, nearest_label, symbol_parts};
ghost use Rattle.disassembler.specs.Reading.{label_parts};

use disassembler::Label;
use state_text::Symbol;
use std::alloc::{AllocError, Global};
use std::marker::Model;

/// The labels of a program, by their addresses, and the number of its bytes.
#[derive(Drop)]
pub struct Labels {
    found: state_text::Labels,
}

impl Model for Labels {
    ghost use Rattle.state_text.specs.Labelled.{Known};

    ghost Value = { Known };

    ghost view = { λ l. l.found };
}

/// The same labels for a debugger.
fn symbols_of<'a>(alloc: Global, labels: &[Label<'a>]) -> Result<Vec<Symbol<'a>>, AllocError>
    ensures { IfOk result (λ symbols. map symbol_parts symbols.items ≡ map label_parts labels.now) }
{
    let mut symbols = Vec::with_capacity(alloc, labels.len())?;
    for label in labels {
        let address = label.address;
        let name = label.name;
        symbols.push(Symbol { address, name })?;
    }
    Ok(symbols)
}

impl Labels {
    /// The labels of a program of `size` bytes.
    pub fn new(alloc: Global, labels: &[Label<'_>], size: usize) -> Result<Labels, AllocError>
        ensures { IfOk result (λ known. known ≡ record { labels = map label_parts labels.now; size = size }) }
    {
        let symbols = symbols_of(alloc, labels)?;
        Ok(Labels {
            found: state_text::Labels::new(alloc, &symbols, size)?,
        })
    }

    /// Whether an address is that of a byte of the program.
    pub fn has(&self, address: u16) -> bool
        ensures { result ≡ is_in_program self.now.size address }
    {
        self.found.has(address)
    }

    /// The label of an address of the program, and how many bytes after it the address is.
    pub fn find(&self, address: u16) -> Option<(&[u8], u16)>
        ensures { option_map (λ found. (found.0.now, found.1)) result ≡ nearest_label self.now address }
    {
        self.found.find(address)
    }
}
