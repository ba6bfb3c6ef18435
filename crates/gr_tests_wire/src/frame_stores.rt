//! Stores of frames, as scripts.

use crate::script::{Script, first_word, perform};
use gr_event::Bytes;
use gr_frame::Frames;
use gr_store::FrameStore;
use gr_tests_rows::{Page, Stop, unescaped};
use std::alloc::Global;

/// Answers a script: `append ; append TEXT TEXT ; spare`, where `-` is a frame of no bytes.
pub fn calls(alloc: Global, ops: &str, page: &mut Page) -> Result<(), Stop> {
    let mut store = FrameStore::new(alloc);
    perform(alloc, &mut store, ops, page)
}

impl Script for FrameStore {
    /// Does an op, and prints each frame that the store then has.
    fn op(&mut self, alloc: Global, op: &str, page: &mut Page) -> Result<(), Stop> {
        let (call, rest) = first_word(op);
        match call {
            "append" => append(alloc, self, rest, page),
            "keep" => keep(alloc, self, rest, page),
            "spare" => {
                write!(page, "{} spare, ", self.spare(alloc).len());
                put_store(self, page);
                Ok(())
            }
            _ => Err(Stop::NoRow),
        }
    }
}

/// The frames of texts.
fn frames_of(alloc: Global, words: &str) -> Result<Frames, Stop> {
    let mut frames = Frames::new(alloc);
    if words.is_empty() {
        return Ok(frames);
    }
    push_texts(alloc, &mut frames, words)?;
    Ok(frames)
}

/// Puts frames of texts behind others.
fn push_texts(alloc: Global, frames: &mut Frames, words: &str) -> Result<(), Stop> {
    for word in words.split(' ') {
        let text = if word == "-" { "" } else { word };
        push_text(alloc, frames, text)?;
    }
    Ok(())
}

/// Puts a frame of a text behind others.
fn push_text(alloc: Global, frames: &mut Frames, text: &str) -> Result<(), Stop> {
    let bytes = unescaped(alloc, text)?;
    Ok(frames.push(Bytes::from_vec(bytes))?)
}

/// Puts the frames of texts at the end.
fn append(alloc: Global, store: &mut FrameStore, words: &str, page: &mut Page) -> Result<(), Stop> {
    let frames = frames_of(alloc, words)?;
    match store.append(&frames) {
        Ok(()) => put_store(store, page),
        Err(_) => page.tear(),
    }
    Ok(())
}

/// Has the store keep the frames of texts.
fn keep(alloc: Global, store: &mut FrameStore, words: &str, page: &mut Page) -> Result<(), Stop> {
    let frames = frames_of(alloc, words)?;
    store.keep(frames);
    put_store(store, page);
    Ok(())
}

/// Prints each frame of a store.
fn put_store(store: &FrameStore, page: &mut Page) {
    write!(page, "{} frames", store.len());
    for i in 0..store.len() {
        page.push_str(" '");
        page.push_escaped(store.frame(i));
        page.push('\'');
    }
}
