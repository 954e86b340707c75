//! The files that are made of a program.

ghost use Rattle.std.specs.Prelude.{◌≡◌, ◌++◌, OnOk, map};
ghost use Rattle.host.specs.Answers.{file_of};
ghost use Rattle.z80dev_make.specs.Products.{listing_files, map_files, program_kinds, symbol_files};
ghost use Rattle.zlink.specs.Linked.{symbol_of};

use host::{Kind, NewFile};
use program_map::{SymbolForm, symbol_file};
use std::alloc::{AllocError, Global};
use zlink::Symbol;

/// What is made of a program besides its sizes file, its certificate and its .COM file.
#[derive(Clone, Copy, Debug)]
pub struct Products {
    /// The listing and the labels.
    pub list: bool,
    /// The map.
    pub map: bool,
    /// The labels for a debugger. In the form of SID, they take the place of those beside the listing.
    pub symbols: Option<SymbolForm>,
}

/// Answers the kinds of the files that are made of a program, in the order in which they are written.
pub fn program_kinds(products: Products) -> &'static [Kind]
    ensures { result.now ≡ program_kinds products }
{
    match (products.list, products.symbols, products.map) {
        (false, None, false) => &[Kind::Sizes, Kind::Certificate, Kind::Com],
        (false, None, true) => &[Kind::Sizes, Kind::Certificate, Kind::Com, Kind::Map],
        (false, Some(SymbolForm::Sid), false) => &[
            Kind::Sizes,
            Kind::Certificate,
            Kind::Com,
            Kind::Symbols,
        ],
        (false, Some(SymbolForm::Sid), true) => &[
            Kind::Sizes,
            Kind::Certificate,
            Kind::Com,
            Kind::Symbols,
            Kind::Map,
        ],
        (false, Some(SymbolForm::Ucsim), false) => &[
            Kind::Sizes,
            Kind::Certificate,
            Kind::Com,
            Kind::Ucsim,
        ],
        (false, Some(SymbolForm::Ucsim), true) => &[
            Kind::Sizes,
            Kind::Certificate,
            Kind::Com,
            Kind::Ucsim,
            Kind::Map,
        ],
        (true, None, false) => &[
            Kind::Sizes,
            Kind::Certificate,
            Kind::Com,
            Kind::Listing,
            Kind::Symbols,
        ],
        (true, None, true) => &[
            Kind::Sizes,
            Kind::Certificate,
            Kind::Com,
            Kind::Listing,
            Kind::Symbols,
            Kind::Map,
        ],
        (true, Some(SymbolForm::Sid), false) => &[
            Kind::Sizes,
            Kind::Certificate,
            Kind::Com,
            Kind::Listing,
            Kind::Symbols,
        ],
        (true, Some(SymbolForm::Sid), true) => &[
            Kind::Sizes,
            Kind::Certificate,
            Kind::Com,
            Kind::Listing,
            Kind::Symbols,
            Kind::Map,
        ],
        (true, Some(SymbolForm::Ucsim), false) => &[
            Kind::Sizes,
            Kind::Certificate,
            Kind::Com,
            Kind::Listing,
            Kind::Symbols,
            Kind::Ucsim,
        ],
        (true, Some(SymbolForm::Ucsim), true) => &[
            Kind::Sizes,
            Kind::Certificate,
            Kind::Com,
            Kind::Listing,
            Kind::Symbols,
            Kind::Ucsim,
            Kind::Map,
        ],
    }
}

/// Appends the listing, if it is wanted.
pub(crate) fn put_listing(
    files: &mut Vec<NewFile>,
    list: bool,
    bytes: Vec<u8>,
) -> Result<(), AllocError>
    ensures { OnOk result (map file_of files.new.items ≡ map file_of files.old.items ++ listing_files list bytes.items) }
{
    if list {
        files.push(NewFile {
            kind: Kind::Listing,
            bytes,
        })?;
    }
    Ok(())
}

/// Appends the map, if it is wanted.
pub(crate) fn put_map(
    files: &mut Vec<NewFile>,
    wanted: bool,
    bytes: Vec<u8>,
) -> Result<(), AllocError>
    ensures { OnOk result (map file_of files.new.items ≡ map file_of files.old.items ++ map_files wanted bytes.items) }
{
    if wanted {
        files.push(NewFile {
            kind: Kind::Map,
            bytes,
        })?;
    }
    Ok(())
}

/// Appends the labels, if they are wanted: those beside the listing, given as text, and those for a debugger.
pub(crate) fn put_symbols(
    alloc: Global,
    files: &mut Vec<NewFile>,
    list: bool,
    form: Option<SymbolForm>,
    plain: Vec<u8>,
    symbols: &[Symbol],
) -> Result<(), AllocError>
    ensures { OnOk result (map file_of files.new.items ≡ map file_of files.old.items ++ symbol_files list form plain.items (map symbol_of symbols.now)) }
{
    let is_plain = list && form != Some(SymbolForm::Sid);
    if is_plain {
        files.push(NewFile {
            kind: Kind::Symbols,
            bytes: plain,
        })?;
    }
    match form {
        Some(SymbolForm::Sid) => files.push(NewFile {
            kind: Kind::Symbols,
            bytes: symbol_file(alloc, SymbolForm::Sid, symbols)?,
        })?,
        Some(SymbolForm::Ucsim) => files.push(NewFile {
            kind: Kind::Ucsim,
            bytes: symbol_file(alloc, SymbolForm::Ucsim, symbols)?,
        })?,
        None => (),
    }
    Ok(())
}
