// Files and outputs, in memory and of the system, with failures.

use ps_outside::{
    DiskFiles, Files, MemFiles, MemSink, ReadFail, Sink, StdSink, Stopped, read_upto, write_all,
};
use std::alloc::Global;
use std::fs;

// Whether a read of at most so many bytes of a file gives this text, or fails where the text is `a fault`.
fn is_read<F: Files>(alloc: Global, files: &mut F, name: &str, most: u32, text: &str) -> bool {
    match read_upto(alloc, files, name, most) {
        Ok(bytes) => bytes.as_slice() == text.as_bytes(),
        Err(ReadFail::Fault) => text == "a fault",
        Err(ReadFail::Memory) => false,
    }
}

// How many bytes of a piece are taken: all of it, or those before a write fails.
fn written<S: Sink>(sink: &mut S, piece: &str) -> usize {
    match write_all(sink, piece.as_bytes()) {
        Ok(()) => piece.len(),
        Err(Stopped { taken }) => taken,
    }
}

// Whether the system's files are read whole and in part, and one that there is not is none.
fn are_of_the_system<F: Files>(alloc: Global, files: &mut F) -> bool {
    is_read(alloc, files, "fish.txt", 100, "one fish two fish")
        && is_read(alloc, files, "fish.txt", 8, "one fish")
        && is_read(alloc, files, "no such file", 8, "a fault")
}

// Whether the files that are held are read so: one of two words, and another that there is not.
fn are_held(alloc: Global, files: &mut MemFiles) -> bool {
    is_read(alloc, files, "fish", 100, "one fish") && is_read(alloc, files, "bird", 0, "a fault")
}

// Whether files in memory are read whole and in pieces.
fn are_in_memory(alloc: Global) -> bool {
    let mut files = MemFiles::new(alloc);
    let are_put = files.put("fish", b"red").is_ok() && files.put("fish", b"one fish").is_ok();
    let are_whole = are_put && are_held(alloc, &mut files);
    files.cut_to(3);
    are_whole && are_held(alloc, &mut files)
}

// Whether the second call fails, which would find the end, and the next one goes on.
fn is_failing(alloc: Global) -> bool {
    let mut files = MemFiles::new(alloc);
    files.put("fish", b"one fish").is_ok()
        && files.fail_at(2).is_ok()
        && is_read(alloc, &mut files, "fish", 100, "a fault")
        && is_read(alloc, &mut files, "fish", 3, "one")
}

// Whether six bytes of room take pieces of which the second write fails, and then what fits into the two that are left.
fn is_kept(alloc: Global) -> bool {
    let Ok(mut sink) = MemSink::new(alloc, 6) else {
        return false;
    };
    sink.fail_at(2).is_ok()
        && written(&mut sink, "one ") == 4
        && written(&mut sink, "f") == 0
        && written(&mut sink, "fish") == 0
        && written(&mut sink, "is") == 2
        && sink.taken() == b"one is".as_slice()
}

// Whether four bytes of room take a piece, and of one that is too large what fits.
fn is_taken() -> bool {
    let mut room = [0u8; 4];
    let mut sink = StdSink::new(room.as_mut_slice());
    written(&mut sink, "ab") == 2 && written(&mut sink, "cdef") == 2
}

#[test]
fn files_and_outputs(rt: HostRuntime) {
    assert!(rt; fs::write(&rt, "fish.txt", "one fish two fish").is_ok());
    assert!(rt; are_of_the_system(rt.alloc(), &mut DiskFiles::new(&rt)));
    assert!(rt; fs::remove_file(&rt, "fish.txt").is_ok());
    assert!(rt; are_in_memory(rt.alloc()) && is_failing(rt.alloc()));
    assert!(rt; is_kept(rt.alloc()) && is_taken());
}
