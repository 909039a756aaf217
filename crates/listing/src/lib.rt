// Writes the listing of a table into the caller's space: who is given each place, and how many the house is given.
#![tactic(auto)]

ghost use Rattle.std.specs.Prelude.{◌≡◌, ◌+◌, ◌<◌, ◌≤◌, [], ◌∷◌, ◌++◌, length, decimal, MatchResult};
ghost use Rattle.game.specs.Rounds.{positions};
ghost use Rattle.game.specs.Table.{table, place_count};
ghost use Rattle.arrayvec.specs.ArrayString.{array_string_len};
ghost use Rattle.listing.specs.Listing.{ended, header_line, place_line, house_places, listing, Listed, Refused};

use arrayvec::ArrayString;
use game::{Duty, Map, Refusal, position_count};
use itoa::{Buffer, Integer};

// The bytes that a space has to have, so that every listing fits.
pub const SPACE: usize = 4096;

// The bytes of the longest listing: 129 lines, the longest of which is `place,255,guest,65535` with its end.
const LONGEST: usize = 2838;

// A listing. Its lines are pushed piece by piece and not printed by `write!`, whose contract lets it fail even where there is
// room; and none is made apart, since it would then be copied.
type Text = ArrayString<LONGEST>;

// Appends a field that is a number: a comma, and the number in decimal.
fn push_field<I: Integer>(text: &mut Text, n: I)
    requires { array_string_len text.old + 1 + I.MAX_STR_LEN ≤ 2838 }
    ensures text { text.new.bytes ≡ text.old.bytes ++ 44 ∷ I.text n }
    ensures most { array_string_len text.new ≤ array_string_len text.old + 1 + I.MAX_STR_LEN }
{
    text.push(',');
    text.push_str(Buffer::new().format(n));
}

// Appends the first line.
fn push_header(text: &mut Text, places: u8, codes: u8, houses: u8)
    requires { array_string_len text.old + 22 ≤ 2838 }
    ensures text { text.new.bytes ≡ text.old.bytes ++ ended (header_line places codes houses) }
    ensures most { array_string_len text.new ≤ array_string_len text.old + 22 }
{
    text.push_str("verdict");
    push_field(text, places);
    push_field(text, codes);
    push_field(text, houses);
    text.push('\n');
}

// Appends the line of a place with this count.
fn push_place(text: &mut Text, v: u8, count: u16)
    requires { array_string_len text.old + 22 ≤ 2838 }
    ensures text { text.new.bytes ≡ text.old.bytes ++ ended (place_line v count) }
    ensures most { array_string_len text.new ≤ array_string_len text.old + 22 }
{
    text.push_str("place");
    push_field(text, v);
    if count == 0 {
        text.push_str(",house");
    } else {
        text.push_str(",guest");
        push_field(text, count);
    }
    text.push('\n');
}

// The counts of a game's table: one at least for each position. It is the crate's own, as the solver's Position is: a struct
// that crates share would be public, and public calls have no `requires` here, so it would need an answer for every number.
#[derive(Drop)]
struct Counts<'a, M: Map, D: Duty> {
    map: &'a M,
    duty: &'a D,
    count: &'a [u16],
    ghost enough: { positions (M.graph map.now) (D.rule duty.now) ≤ length count.now },
}

impl<M: Map, D: Duty> Counts<'_, M, D> {
    // A place's count: that of its position with the start code. 0 where it has none, as the table holds it.
    fn of_place(&self, v: u8) -> u16
        requires { v < (M.graph self.now.map.now).size }
        ensures { result ≡ place_count
            (M.graph self.now.map.now) (D.rule self.now.duty.now) (table [] self.now.count.now) v }
    {
        self.count[usize::from(v) * usize::from(self.duty.codes()) + usize::from(self.duty.start())]
    }

    // How many places the house is given: a byte, since a map has at most 128 places.
    fn houses(&self) -> u8
        ensures { result ≡ house_places
            (M.graph self.now.map.now) (D.rule self.now.duty.now) (table [] self.now.count.now)
            (M.graph self.now.map.now).size }
    {
        (0..self.map.size())
            .map(|v| self.of_place(v))
            .filter(|k| *k == 0)
            .count() as u8
    }

    // Puts the listing into an empty text; it is shorter than the space that is asked for. Each place tells its own number, so the
    // loop is over the numbers. The text is lent, since one that is answered is made and zeroed three times.
    fn push_listing(&self, text: &mut Text)
        requires { text.old.bytes ≡ [] }
        ensures text { text.new.bytes ≡ listing
            (M.graph self.now.map.now) (D.rule self.now.duty.now) (table [] self.now.count.now) }
        ensures most { array_string_len text.new ≤ 2838 }
    {
        let places = self.map.size();
        push_header(text, places, self.duty.codes(), self.houses());
        for v in 0..places {
            push_place(text, v, self.of_place(v));
        }
    }
}

// Writes the listing of the counts at the start of the space and answers its length; or refuses and changes nothing.
// The space is lent: the call is to be made from C too, where there is no allocator, so a space comes in and a length goes out.
pub fn write_listing<M: Map, D: Duty>(
    map: &M,
    duty: &D,
    count: &[u16],
    space: &mut [u8],
) -> Result<usize, Refusal>
    ensures { MatchResult result
        (Listed (M.graph map.now) (D.rule duty.now) count.now space.old space.new)
        (Refused (M.graph map.now) (D.rule duty.now) count.now space.old space.new) }
{
    if count.len() < usize::from(position_count(map, duty)) {
        return Err(Refusal::Short);
    }
    if space.len() < SPACE {
        return Err(Refusal::Space);
    }
    let mut text = Text::new();
    Counts { map, duty, count }.push_listing(&mut text);
    let long = text.len();
    space[..long].copy_from_slice(text.as_bytes());
    Ok(long)
}
