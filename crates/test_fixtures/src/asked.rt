//! The inputs of a run.

use std::alloc::{AllocError, Global};

/// A run: its words, with one space between them; the words of the input `obj`; the bytes of the input `script`; the
/// bytes at which reads fail, of `obj`, `script` and `topo` in this order; and the bytes of the input `topo`.
#[derive(Clone, Copy)]
pub struct Asked<'a> {
    pub words: &'a str,
    pub object: &'a [u32],
    pub script: &'a [u8],
    pub failing: &'a [(u32, u32)],
    pub topology: &'a [u8],
}

/// A replay of a script over an object, over inputs that don't fail.
pub fn replay_of<'a>(object: &'a [u32], script: &'a [u8]) -> Asked<'a> {
    Asked {
        words: "replay obj script",
        object,
        script,
        failing: &[],
        topology: &[],
    }
}

/// These texts joined in their order.
pub fn joined(alloc: Global, texts: &[&str]) -> Result<Vec<u8>, AllocError> {
    let mut whole = Vec::new(alloc);
    for text in texts {
        whole.extend_from_slice(text.as_bytes())?;
    }
    Ok(whole)
}
