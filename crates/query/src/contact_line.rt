// A contact as a line of text: its seven numbers as bits and its two ids, in lowercase hexadecimal digits.
ghost use Rattle.std.specs.Prelude.{◌≡◌, ◌-◌, ◌%◌, ◌<◌, ◌≤◌, [], ◌∷◌, ◌++◌, length};
ghost use Rattle.math.specs.Refusals.{told};
ghost use Rattle.query.specs.Contacts.{seen};
ghost use Rattle.query.specs.Lines.{digit, hex, words, lining, lined};

use crate::contact_manifold::TrackedContact;
use math::refusal::Refusal;

// The bytes of a contact line, its newline among them.
pub const CONTACT_LINE_LEN: usize = 137;

// The bytes of a number's group: 16 digits and a space.
const NUMBER_LEN: usize = 17;

// The bytes of an id's group, and where the first one begins.
const ID_LEN: usize = 9;

const IDS_AT: usize = 7 * NUMBER_LEN;

// The line into the first 137 bytes of `buffer`; a shorter one is turned down with 14, and is as before.
pub fn contact_line<D>(contact: &TrackedContact<D>, buffer: &mut [u8]) -> Result<(), Refusal>
    ensures answer { told result ≡ lining buffer.old }
    ensures after { buffer.new ≡ lined (seen contact.now) buffer.old }
{
    if buffer.len() < CONTACT_LINE_LEN {
        return Err(Refusal::BufferTooShort);
    }
    // By ranges: of what `chunks_exact_mut` or `split_at_mut` lends here, a proof learns nothing once it ends.
    for (i, bits) in number_bits(contact).iter().enumerate() {
        let at = NUMBER_LEN * i;
        put_group(&mut buffer[at..at + NUMBER_LEN], *bits, b' ');
    }
    put_group(
        &mut buffer[IDS_AT..IDS_AT + ID_LEN],
        contact.fid1.0.into(),
        b' ',
    );
    put_group(
        &mut buffer[IDS_AT + ID_LEN..CONTACT_LINE_LEN],
        contact.fid2.0.into(),
        b'\n',
    );
    Ok(())
}

// Written out: that no number is a NaN, `map` could only be told by clauses of its closure.
fn number_bits<D>(contact: &TrackedContact<D>) -> [u64; 7]
    ensures { result ≡ words (seen contact.now) }
{
    let p1 = contact.local_p1;
    let p2 = contact.local_p2;
    [
        p1.x.to_bits(),
        p1.y.to_bits(),
        p1.z.to_bits(),
        p2.x.to_bits(),
        p2.y.to_bits(),
        p2.z.to_bits(),
        contact.dist.to_bits(),
    ]
}

// The lowest digits of `value`, as many as the group has room for before its last byte, which is `end`.
fn put_group(group: &mut [u8], value: u64, end: u8)
    requires some { 0 < length group.old }
    requires few { length group.old ≤ 17 }
    ensures { group.new ≡ hex (length group.old - 1) value ++ (end ∷ []) }
{
    let digits = group.len() - 1;
    for (i, digit) in group[..digits].iter_mut().enumerate() {
        *digit = hex_digit(value >> (4 * (digits - 1 - i)));
    }
    group[digits] = end;
}

// The lowest hexadecimal digit of `value`.
pub fn hex_digit(value: u64) -> u8
    ensures { result ≡ digit (value % 16) }
{
    char::from_digit((value % 16) as u32, 16).unwrap() as u8
}
