//! Where the contents of a file lie in its archive.

ghost use Rattle.std.specs.Prelude.{◌≡◌, ◌≤◌, ◌++◌, List, ℕ, length, take, drop};
ghost use Rattle.nar.specs.String.{length_at};
ghost use Rattle.intake.specs.Contents as spec;
ghost use Rattle.intake.specs.Contents.{contents_so_far};

/// What the archive of a regular file that isn't executable begins with, up to the length of its contents.
pub const PREFIX: &[u8] = b"\x0d\0\0\0\0\0\0\0nix-archive-1\0\0\0\
\x01\0\0\0\0\0\0\0(\0\0\0\0\0\0\0\
\x04\0\0\0\0\0\0\0type\0\0\0\0\
\x07\0\0\0\0\0\0\0regular\0\
\x08\0\0\0\0\0\0\0contents";

/// Whether an archive begins as that of a regular file that isn't executable.
pub fn begins_plain(archive: &[u8]) -> bool
    ensures { result ≡ spec.begins_plain archive.now }
{
    let (front, _) = archive.split_at(88usize.min(archive.len()));
    front == PREFIX
}

/// The length that follows the prefix.
fn length_after_prefix(archive: &[u8]) -> u64
    requires { 96 ≤ length archive.now }
    ensures { result ≡ length_at (drop 88 archive.now) }
{
    let (_, rest) = archive.split_at(88);
    let (head, _) = rest.split_at(8);
    u64::from_le_bytes([
        head[0], head[1], head[2], head[3], head[4], head[5], head[6], head[7],
    ])
}

/// The part of a piece that is contents, of an archive that begins with `first`; a given number of bytes came before
/// the piece.
pub fn contents_in<'a>(first: &[u8], before: usize, piece: &'a [u8]) -> &'a [u8]
    ensures { (old : List ℕ) → length old ≡ before → first.now ≡ take 65536 (old ++ piece.now)
        → contents_so_far (old ++ piece.now) ≡ contents_so_far old ++ result.now }
{
    if first.len() < 96 {
        return b"";
    }
    if !begins_plain(first) {
        return b"";
    }
    let skipped = 96usize.saturating_sub(before);
    let (_, behind) = piece.split_at(skipped.min(piece.len()));
    let had = before.saturating_sub(96);
    let left = (length_after_prefix(first) as usize).saturating_sub(had);
    let (contents, _) = behind.split_at(left.min(behind.len()));
    contents
}
