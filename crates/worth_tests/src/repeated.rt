use sprite_ids::NoMemory;
use std::alloc::Global;

/// The text of a trace in which a part comes so often, before and behind which others come. The one error is want of memory.
pub(crate) fn text_of(
    alloc: Global,
    before: &str,
    count: u16,
    part: &str,
    behind: &str,
) -> Result<Vec<u8>, NoMemory> {
    let mut text = Vec::new(alloc);
    text.extend_from_slice(before.as_bytes())?;
    for _ in 0..count {
        text.extend_from_slice(part.as_bytes())?;
    }
    text.extend_from_slice(behind.as_bytes())?;
    Ok(text)
}
