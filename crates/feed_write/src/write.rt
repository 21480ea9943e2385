ghost use Rattle.std.specs.Prelude.{◌≡◌, ◌+◌, ◌<◌, ◌≤◌, true, map, length, take, is_ok, IfOk, Some, Ok};
ghost use Rattle.feed.specs.Format.{entry as entry_of, listed};
ghost use Rattle.feed.specs.Shown.{told};
ghost use Rattle.feed_write.specs.Written.{Wrote, bytes, letters, sound as sound_is, size as size_of, entry_end, feed_end, feed_bytes, first, placed, WroteIf, WellFormed};

use crate::fault::WriteFault;
use feed::entry::{Entry, MOST_REFERENCE};
use rank::key::Flag;

/// The place of the first entry, after the mark and the version.
pub const FIRST: usize = 5;

/// Writes the part over out from a place on, and gives the place after it.
// A cursor of the two would be no plainer: callers lend out and give and get places, so each would make one and take it apart.
fn put(out: &mut [u8], place: usize, part: &[u8]) -> usize
    requires { place + length part.now ≤ length out.old }
    ensures { Wrote out.old place part.now out.new result }
{
    let end = place + part.len();
    out[place..end].copy_from_slice(part);
    end
}

/// Writes the letters of a flag, and gives the place after them.
fn put_flag(out: &mut [u8], place: usize, flag: Flag) -> usize
    requires { place + length (letters flag) ≤ length out.old }
    ensures { Wrote out.old place (letters flag) out.new result }
{
    put(out, place, flag.letters().as_bytes())
}

/// How many bytes an entry takes.
fn size(entry: &Entry<'_>) -> Result<usize, WriteFault>
    ensures { result ≡ size_of (told entry.now) }
{
    match entry {
        Entry::Trade { reference, .. } => {
            if reference.len() < 1 || reference.len() > MOST_REFERENCE {
                return Err(WriteFault::Reference);
            }
            Ok(17 + reference.len())
        }
        Entry::Close { .. } => Ok(6),
    }
}

/// Where an entry ends that is written at a place into so much room.
fn entry_end(entry: &Entry<'_>, place: usize, room: usize) -> Result<usize, WriteFault>
    ensures { result ≡ entry_end room place (told entry.now) }
{
    let end = place.checked_add(size(entry)?);
    end.filter(|end| *end <= room).ok_or(WriteFault::Room)
}

/// Writes an entry at a place where there is room for it, and gives the place after it.
fn put_entry(out: &mut [u8], place: usize, entry: &Entry<'_>) -> usize
    requires sound { sound_is (told entry.now) ≡ true }
    requires room { place + length (bytes (told entry.now)) ≤ length out.old }
    ensures wrote { Wrote out.old place (bytes (told entry.now)) out.new result }
    ensures formed { WellFormed (told entry.now) }
{
    match entry {
        Entry::Trade {
            reference,
            buyer,
            buyer_flag,
            seller,
            seller_flag,
            security,
            quantity,
            price,
        } => {
            let at = put(out, place, &[b'T', reference.len() as u8]);
            let at = put(out, at, reference);
            let at = put(out, at, &[*buyer]);
            let at = put_flag(out, at, *buyer_flag);
            let at = put(out, at, &[*seller]);
            let at = put_flag(out, at, *seller_flag);
            let at = put(out, at, &[*security]);
            let at = put(out, at, &quantity.to_be_bytes());
            put(out, at, &price.to_be_bytes())
        }
        Entry::Close { security, price } => {
            let at = put(out, place, &[b'C', *security]);
            put(out, at, &price.to_be_bytes())
        }
    }
}

/// Where a feed of the entries ends in so much room.
fn feed_end(entries: &[Entry<'_>], room: usize) -> Result<usize, WriteFault>
    ensures { result ≡ feed_end room (map told entries.now) }
{
    if room < FIRST {
        return Err(WriteFault::Room);
    }
    let mut place = FIRST;
    for entry in entries {
        place = entry_end(entry, place, room)?;
    }
    if place == room {
        return Err(WriteFault::Room);
    }
    Ok(place + 1)
}

/// Writes an entry that was found to fit, and gives the place after it.
fn put_fitting(out: &mut [u8], place: usize, entry: &Entry<'_>) -> usize
    requires { is_ok (entry_end (length out.old) place (told entry.now)) ≡ true }
    ensures value { Ok result ≡ entry_end (length out.old) place (told entry.now) }
    ensures wrote { Wrote out.old place (bytes (told entry.now)) out.new result }
    ensures read { entry_of out.new place ≡ Ok (Some (told entry.now), result) }
{
    put_entry(out, place, entry)
}

/// Writes a feed that was found to fit, and gives its length.
fn put_feed(out: &mut [u8], entries: &[Entry<'_>]) -> usize
    requires { is_ok (feed_end (length out.old) (map told entries.now)) ≡ true }
    ensures value { Ok result ≡ feed_end (length out.old) (map told entries.now) }
    ensures wrote { Wrote out.old 0 (feed_bytes (map told entries.now)) out.new result }
    ensures read { listed (take result out.new) ≡ Ok (placed first (map told entries.now)) }
{
    let mut place = put(out, 0, b"TRF\x00\x01");
    for entry in entries {
        place = put_entry(out, place, entry);
    }
    put(out, place, b"Z")
}

/// Writes one entry at a place, and gives the place after it. A refusal leaves out as it was.
pub fn write_entry(out: &mut [u8], place: usize, entry: &Entry<'_>) -> Result<usize, WriteFault>
    ensures value { result ≡ entry_end (length out.old) place (told entry.now) }
    ensures wrote { WroteIf result out.old place (bytes (told entry.now)) out.new }
    ensures read { IfOk result (λ q. entry_of out.new place ≡ Ok (Some (told entry.now), q)) }
{
    entry_end(entry, place, out.len())?;
    Ok(put_fitting(out, place, entry))
}

/// Writes a feed of the entries, and gives its length. A refusal leaves out as it was.
pub fn write_feed(out: &mut [u8], entries: &[Entry<'_>]) -> Result<usize, WriteFault>
    ensures value { result ≡ feed_end (length out.old) (map told entries.now) }
    ensures wrote { WroteIf result out.old 0 (feed_bytes (map told entries.now)) out.new }
    ensures read { IfOk result (λ n. listed (take n out.new) ≡ Ok (placed first (map told entries.now))) }
{
    feed_end(entries, out.len())?;
    Ok(put_feed(out, entries))
}
