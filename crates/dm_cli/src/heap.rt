// What the C library keeps of the heap.
use std::alloc::Global;

// In bytes. A message of 1,500 commands takes two thirds of it; one of more items, or of long texts by its string
// table, may take more than what is kept.
const BLOCK: usize = 1_048_576;

/// Takes one large block and gives it back, which tells the C library to keep twice as much at the end of its heap.
/// Without it that end, where a message with many commands stood, goes back to the system behind each such message,
/// and is cleared anew for the next. Where there is no such block nothing is told.
pub fn keep_heap(alloc: Global) {
    drop(Vec::<u8>::with_capacity(alloc, BLOCK));
}
