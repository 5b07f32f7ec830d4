//! A buffer, from whose beginning bytes are removed.
ghost use Rattle.std.specs.Prelude.{◌≡◌, drop};

/// Removes a number of bytes from the beginning of a buffer, or all if the buffer has fewer. Allocates no memory.
///
/// ```rust
/// use streams::drain_prefix;
///
/// let mut buffer = Vec::from_slice(alloc, b"mycontent")?;
/// drain_prefix(&mut buffer, 2);
/// assert_eq!(rt; buffer.as_slice(), b"content".as_slice());
/// ```
pub fn drain_prefix(buffer: &mut Vec<u8>, n: usize)
    ensures { buffer.new.items ≡ drop n buffer.old.items }
{
    let removed = n.min(buffer.len());
    let rest = buffer.len() - removed;
    buffer.copy_within(removed.., 0);
    buffer.truncate(rest);
}
