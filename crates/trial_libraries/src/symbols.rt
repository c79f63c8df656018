// The dynamic symbols of a generated library, and their names.
ghost use Rattle.std.specs.Prelude.{◌≡◌, ◌≤◌, ◌+◌, ◌++◌, OnOk, IfOk};
ghost use Rattle.trial_libraries.specs.Bytes.{ended, string_table};
ghost use Rattle.trial_libraries.specs.Limits.{most_functions};
ghost use Rattle.trial_libraries.specs.Symbols.{function_address, function_name, function_names, symbol, symbol_table};

use crate::bytes::{put_text, put_u16, put_u32, put_u64};
use crate::constants::{GLOBAL_FUNCTION, STV_DEFAULT, SYM_SIZE};
use std::alloc::{AllocError, Global};

// The address of function 0, and the size of each function in bytes.
const FIRST_ADDRESS: u64 = 4096;

const FUNCTION_SIZE: u64 = 16;

// The section index in the functions' symbols.
const FUNCTION_SECTION: u16 = 1;

// The symbols and their string table.
#[derive(Drop)]
pub(crate) struct Symbols {
    pub(crate) symbols: Vec<u8>,
    pub(crate) names: Vec<u8>,
}

// The address of a function.
pub(crate) fn address_of(number: u32) -> u64
    ensures { result ≡ function_address number }
{
    FIRST_ADDRESS + FUNCTION_SIZE * number as u64
}

// Appends a function's name and its terminating 0 byte.
pub(crate) fn put_name(bytes: &mut Vec<u8>, number: u32) -> Result<(), AllocError>
    ensures { OnOk result (bytes.new.items ≡ bytes.old.items ++ ended (function_name number)) }
{
    let name = format!(in *bytes.allocator(); "f{number}")?;
    put_text(bytes, name.as_str())
}

// Appends a function's symbol, with the offset of its name in the string table.
fn put_symbol(symbols: &mut Vec<u8>, name_place: u32, number: u32) -> Result<(), AllocError>
    ensures { OnOk result (symbols.new.items ≡ symbols.old.items ++ symbol name_place number) }
{
    put_u32(symbols, name_place)?;
    symbols.extend_from_slice(&[GLOBAL_FUNCTION, STV_DEFAULT])?;
    put_u16(symbols, FUNCTION_SECTION)?;
    put_u64(symbols, address_of(number))?;
    put_u64(symbols, FUNCTION_SIZE)
}

// The symbols of the first n functions. Fails only where memory runs out.
pub(crate) fn make_symbols(alloc: Global, n: u32) -> Result<Symbols, AllocError>
    requires { n ≤ most_functions }
    ensures symbols { IfOk result (λ made. made.symbols.items ≡ symbol_table n) }
    ensures names { IfOk result (λ made. made.names.items ≡ string_table (function_names n)) }
{
    let mut symbols = Vec::from_slice(alloc, &[0; SYM_SIZE])?;
    let mut names = Vec::from_slice(alloc, &[0])?;
    for number in 0..n {
        put_symbol(&mut symbols, names.as_slice().len() as u32, number)?;
        put_name(&mut names, number)?;
    }
    Ok(Symbols { symbols, names })
}
