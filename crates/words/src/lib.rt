// The words of document 01, packed and unpacked. A word is of its kind when its top two bits say so and every bit that
// its layout does not name is zero.
#![tactic(auto)]

ghost use Rattle.std.specs.Prelude.{◌≡◌, ◌<◌, ◌≤◌, ◌+◌};
ghost use Rattle.words.specs.Layout.{capacity, get, is_of, filled};
ghost use Rattle.words.specs.Words.{unused_layout, unused_word, departure_field, arrival_field, interval_layout, interval_word, interval_of, from_field, to_field, tick_field, contact_layout, contact_word, contact_of, animals_field, ticks_field, carry_field, opening_layout, opening_word, animals_of, ticks_of, carry_of, rows_field, count_layout, count_word, logged_field, end_layout, end_word};

use journeys::{Contact, Interval};

// The field of WIDTH bits, the lowest of them bit LOW.
fn field<const LOW: u32, const WIDTH: u32>(w: u32) -> u32
    requires { LOW + WIDTH ≤ 30 }
    ensures { result ≡ get (record { shift = LOW; width = WIDTH }) w }
{
    (w >> LOW) % (1 << WIDTH)
}

// Whether the word is of the kind and everything outside its lowest WIDTH bits is zero.
fn is_filled<const KIND: u32, const WIDTH: u32>(w: u32) -> bool
    requires { (KIND < 4) × (WIDTH ≤ 30) }
    ensures { result ≡ is_of (filled KIND WIDTH) w }
{
    w >> WIDTH == KIND << (30 - WIDTH)
}

pub fn unused_word() -> u32
    ensures { result ≡ unused_word }
{
    0x0000_0000
}

pub fn is_unused(w: u32) -> bool
    ensures { result ≡ is_of unused_layout w }
{
    w == 0
}

pub fn interval_word(i: Interval) -> u32
    requires { (i.departure < capacity departure_field) × (i.arrival < capacity arrival_field) }
    ensures { result ≡ interval_word i }
{
    0x4000_0000 + i.departure * 0x800 + i.arrival
}

pub fn is_interval(w: u32) -> bool
    ensures { result ≡ is_of interval_layout w }
{
    is_filled::<1, 22>(w)
}

pub fn departure_of(w: u32) -> u32
    ensures { result ≡ get departure_field w }
{
    field::<11, 11>(w)
}

pub fn arrival_of(w: u32) -> u32
    ensures { result ≡ get arrival_field w }
{
    field::<0, 11>(w)
}

// The interval that the word says.
pub fn interval_of(w: u32) -> Interval
    ensures { result ≡ interval_of w }
{
    Interval {
        departure: departure_of(w),
        arrival: arrival_of(w),
    }
}

pub fn contact_word(k: Contact) -> u32
    requires { (k.from < capacity from_field) × (k.to < capacity to_field) × (1 ≤ k.tick) × (k.tick ≤ capacity tick_field) }
    ensures { result ≡ contact_word k }
{
    0x4000_0000 + k.from * 0x4_0000 + k.to * 0x400 + (k.tick - 1)
}

pub fn is_contact(w: u32) -> bool
    ensures { result ≡ is_of contact_layout w }
{
    is_filled::<1, 26>(w)
}

pub fn from_of(w: u32) -> u32
    ensures { result ≡ get from_field w }
{
    field::<18, 8>(w)
}

pub fn to_of(w: u32) -> u32
    ensures { result ≡ get to_field w }
{
    field::<10, 8>(w)
}

pub fn tick_of(w: u32) -> u32
    ensures { result ≡ get tick_field w + 1 }
{
    field::<0, 10>(w) + 1
}

// The contact that the word says.
pub fn contact_of(w: u32) -> Contact
    ensures { result ≡ contact_of w }
{
    Contact {
        from: from_of(w),
        to: to_of(w),
        tick: tick_of(w),
    }
}

pub fn opening_word(animals: u32, ticks: u32, carry: u32) -> u32
    requires { (1 ≤ animals) × (animals ≤ capacity animals_field) × (1 ≤ ticks) × (ticks ≤ capacity ticks_field) × (1 ≤ carry) × (carry ≤ capacity carry_field) }
    ensures { result ≡ opening_word animals ticks carry }
{
    0x8000_0000 + (animals - 1) * 0x4_0000 + (carry - 1) * 0x400 + (ticks - 1)
}

pub fn is_opening(w: u32) -> bool
    ensures { result ≡ is_of opening_layout w }
{
    is_filled::<2, 26>(w)
}

pub fn animals_of(w: u32) -> u32
    ensures { result ≡ animals_of w }
{
    field::<18, 8>(w) + 1
}

pub fn ticks_of(w: u32) -> u32
    ensures { result ≡ ticks_of w }
{
    field::<0, 10>(w) + 1
}

pub fn carry_of(w: u32) -> u32
    ensures { result ≡ carry_of w }
{
    field::<10, 8>(w) + 1
}

pub fn count_word(rows: u32) -> u32
    requires { rows < capacity rows_field }
    ensures { result ≡ count_word rows }
{
    0xC000_0000 + rows
}

pub fn is_count(w: u32) -> bool
    ensures { result ≡ is_of count_layout w }
{
    is_filled::<3, 11>(w)
}

pub fn rows_of(w: u32) -> u32
    ensures { result ≡ get rows_field w }
{
    field::<0, 11>(w)
}

pub fn end_word(logged: u32) -> u32
    requires { logged < capacity logged_field }
    ensures { result ≡ end_word logged }
{
    0xC000_0000 + logged
}

pub fn is_end(w: u32) -> bool
    ensures { result ≡ is_of end_layout w }
{
    is_filled::<3, 26>(w)
}

pub fn logged_of(w: u32) -> u32
    ensures { result ≡ get logged_field w }
{
    field::<0, 26>(w)
}
