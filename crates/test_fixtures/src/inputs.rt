//! The words and the inputs of a run, in memory.

use crate::asked::Asked;
use pm_base::NoMemory;
use pm_io::MemInputs;
use std::alloc::{AllocError, Global};

/// The bytes of these words, in little-endian order.
pub fn bytes_of(alloc: Global, words: &[u32]) -> Result<Vec<u8>, AllocError> {
    let mut bytes = Vec::new(alloc);
    for word in words {
        bytes.extend_from_slice(&word.to_le_bytes())?;
    }
    Ok(bytes)
}

/// Adds an input under a name, unless there is one already.
pub fn put(inputs: &mut MemInputs, name: &str, content: &[u8]) -> Result<(), NoMemory> {
    if !inputs.has(name) {
        inputs.add(name, content)?;
    }
    Ok(())
}

/// The inputs `obj`, `script` and `topo` of a run.
pub fn inputs_of(alloc: Global, asked: &Asked) -> Result<Box<MemInputs>, NoMemory> {
    let object = bytes_of(alloc, asked.object).map_err(|_| NoMemory)?;
    let mut inputs = Box::new(alloc, MemInputs::new(alloc, asked.failing)?).map_err(|_| NoMemory)?;
    put(&mut inputs, "obj", &object)?;
    put(&mut inputs, "script", asked.script)?;
    put(&mut inputs, "topo", asked.topology)?;
    Ok(inputs)
}

/// The words of a run.
pub fn words_of(alloc: Global, words: &str) -> Result<Vec<String>, AllocError> {
    let mut texts = Vec::new(alloc);
    for word in words.split_whitespace() {
        texts.push(String::from_str(alloc, word)?)?;
    }
    Ok(texts)
}
