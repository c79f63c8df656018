// The optional members of a document.
use abi_base::NoMemory;
use document_head::Wanted;
use std::env;
use std::env::VarError;
use std::rt::Env;

// Whether an environment variable has a value. It fails only if memory runs out.
fn is_set<R: Env + AllocGlobal>(rt: &R, name: &str, value: &str) -> Result<bool, NoMemory> {
    match env::var(rt, name) {
        Ok(set) => Ok(set.as_str() == value),
        Err(VarError::OutOfMemory) => Err(NoMemory::Allocation),
        Err(_) => Ok(false),
    }
}

/// The optional members that the environment requests. It fails only if memory runs out.
pub(crate) fn wanted_by<R: Env + AllocGlobal>(rt: &R) -> Result<Wanted, NoMemory> {
    Ok(Wanted {
        notes: is_set(rt, "ABI_NOTES", "1")?,
        digests: !is_set(rt, "ABI_DIGESTS", "0")?,
    })
}
