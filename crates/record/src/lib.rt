// The pieces that records are made of: little-endian numbers read and written, marks, and a literal's record; and the
// writer, which puts them into a lent buffer one behind another.
#![tactic(auto)]

ghost use Rattle.std.specs.Prelude.{◌≡◌, [], ◌∷◌, ◌≤◌, ◌+◌, ◌-◌, ◌*◌, ◌/◌, ◌%◌, length, get_or};
ghost use Rattle.meaning.specs.Trees.{lit_len};
ghost use Rattle.meaning.specs.Records.{‘V’, le};
ghost use Rattle.record.specs.Bytes.{Decides, Starts, Width, number_at, Takes, Put, times};
ghost use Rattle.record.specs.Fronts.{array_front, struct_front};
ghost use Rattle.record.specs.Literals.{width_of, literal_of, Sized, most_lit};

use kind::Scalar;

// ---- what stands at a place

// How many bytes s has from `at` on.
pub fn room(s: &[u8], at: usize) -> usize
    ensures { result ≡ length s.now - at }
{
    if s.len() < at {
        return 0;
    }
    s.len() - at
}

// Whether the bytes a and b stand at `at`.
pub fn two_at(s: &[u8], at: usize, a: u8, b: u8) -> bool
    ensures { Decides (Starts s.now at (a ∷ b ∷ [])) result }
{
    if room(s, at) < 2 {
        return false;
    }
    if s[at] != a {
        return false;
    }
    s[at + 1] == b
}

// ---- numbers read, the low byte first

// The low byte and the high byte of a count.
pub fn low(n: u16) -> u8
    ensures { result ≡ n % 256 }
{
    n.to_le_bytes()[0]
}

pub fn high(n: u16) -> u8
    ensures { result ≡ n / 256 % 256 }
{
    n.to_le_bytes()[1]
}

// The number whose low byte is lo and whose high byte is hi.
pub fn join(lo: u8, hi: u8) -> u16
    ensures { result ≡ lo + 256 * hi }
{
    u16::from_le_bytes([lo, hi])
}

// The numbers of two, four and eight bytes. None has a loop, so that the compiler makes one load of each.
#[tactic(auto, unfolding(crate::specs::Bytes::number_at))]
pub fn two(s: &[u8], at: usize) -> u16
    requires { at + 2 ≤ length s.now }
    ensures { result ≡ number_at s.now at 2 }
{
    join(s[at], s[at + 1])
}

#[tactic(auto, unfolding(crate::specs::Bytes::number_at))]
fn four(s: &[u8], at: usize) -> u32
    requires { at + 4 ≤ length s.now }
    ensures { result ≡ number_at s.now at 4 }
{
    u32::from_le_bytes([s[at], s[at + 1], s[at + 2], s[at + 3]])
}

#[tactic(auto, unfolding(crate::specs::Bytes::number_at))]
fn eight(s: &[u8], at: usize) -> u64
    requires { at + 8 ≤ length s.now }
    ensures { result ≡ number_at s.now at 8 }
{
    u64::from_le_bytes([
        s[at],
        s[at + 1],
        s[at + 2],
        s[at + 3],
        s[at + 4],
        s[at + 5],
        s[at + 6],
        s[at + 7],
    ])
}

// The number of the w bytes from `at` on. The widths are told apart by their order, the widest first: told apart one by
// one they become a jump through a table.
pub fn number(s: &[u8], at: usize, w: usize) -> u64
    requires { Width w × (at + w ≤ length s.now) }
    ensures { result ≡ number_at s.now at w }
{
    if w > 4 {
        return eight(s, at);
    }
    if w > 2 {
        return four(s, at) as u64;
    }
    if w > 1 {
        return two(s, at) as u64;
    }
    if w > 0 {
        return s[at] as u64;
    }
    0
}

// ---- bytes written

// Where in a lent buffer the next byte is written. As far as the compiler knows, a stored byte may change the place: each
// method reads the place once, stores, and writes it back once. One that calls others, or has a loop, does it by a writer
// of its own, which stays in registers; so does a loop elsewhere that writes small items.
#[derive(Drop)]
pub struct Writer<'a> {
    pub out: &'a mut [u8],
    pub at: usize,
}

// A part becomes those bytes. The library's `copy_from_slice` would ask for `memmove` of whoever links the archive.
fn overwrite(part: &mut [u8], bytes: &[u8])
    requires { length part.old ≡ length bytes.now }
    ensures { part.new ≡ bytes.now }
{
    for i in 0..bytes.len() {
        part[i] = bytes[i];
    }
}

impl Writer<'_> {
    // One byte; two, three and four.
    pub fn put_byte(&mut self, a: u8)
        requires { self.old.at + 1 ≤ length self.old.out.now }
        ensures put { Put self.old.out.now self.old.at (a ∷ []) self.new.at self.new.out.now }
        ensures same_reference { self.new.out.ghost_name ≡ self.old.out.ghost_name }
    {
        let to = self.at;
        self.out[to] = a;
        self.at = to + 1;
    }

    pub fn put_pair(&mut self, a: u8, b: u8)
        requires { self.old.at + 2 ≤ length self.old.out.now }
        ensures put { Put self.old.out.now self.old.at (a ∷ b ∷ []) self.new.at self.new.out.now }
        ensures same_reference { self.new.out.ghost_name ≡ self.old.out.ghost_name }
    {
        let (out, to) = (&mut *self.out, self.at);
        out[to] = a;
        out[to + 1] = b;
        self.at = to + 2;
    }

    pub fn put_three(&mut self, a: u8, b: u8, c: u8)
        requires { self.old.at + 3 ≤ length self.old.out.now }
        ensures put { Put self.old.out.now self.old.at (a ∷ b ∷ c ∷ []) self.new.at self.new.out.now }
        ensures same_reference { self.new.out.ghost_name ≡ self.old.out.ghost_name }
    {
        let (out, to) = (&mut *self.out, self.at);
        out[to] = a;
        out[to + 1] = b;
        out[to + 2] = c;
        self.at = to + 3;
    }

    pub fn put_four(&mut self, a: u8, b: u8, c: u8, d: u8)
        requires { self.old.at + 4 ≤ length self.old.out.now }
        ensures put { Put self.old.out.now self.old.at (a ∷ b ∷ c ∷ d ∷ []) self.new.at self.new.out.now }
        ensures same_reference { self.new.out.ghost_name ≡ self.old.out.ghost_name }
    {
        let (out, to) = (&mut *self.out, self.at);
        out[to] = a;
        out[to + 1] = b;
        out[to + 2] = c;
        out[to + 3] = d;
        self.at = to + 4;
    }

    // A byte string.
    pub fn put_bytes(&mut self, bytes: &[u8])
        requires { Takes self.old.out.now self.old.at bytes.now }
        ensures put { Put self.old.out.now self.old.at bytes.now self.new.at self.new.out.now }
        ensures same_reference { self.new.out.ghost_name ≡ self.old.out.ghost_name }
    {
        let end = self.at + bytes.len();
        overwrite(&mut self.out[self.at..end], bytes);
        self.at = end;
    }

    // The w lowest bytes of n, the low byte first. Each width is written by itself, so that the compiler makes one store
    // of it.
    pub fn put_le(&mut self, w: usize, n: u64)
        requires { Width w × (self.old.at + w ≤ length self.old.out.now) }
        ensures put { Put self.old.out.now self.old.at (le w n) self.new.at self.new.out.now }
        ensures same_reference { self.new.out.ghost_name ≡ self.old.out.ghost_name }
    {
        let bytes = n.to_le_bytes();
        if w > 4 {
            self.put_bytes(&bytes);
            return;
        }
        if w > 2 {
            self.put_four(bytes[0], bytes[1], bytes[2], bytes[3]);
            return;
        }
        if w > 1 {
            self.put_pair(bytes[0], bytes[1]);
            return;
        }
        if w > 0 {
            self.put_byte(bytes[0]);
        }
    }

    // The mark of a value's record: `V` and a letter.
    pub fn put_mark(&mut self, letter: u8)
        requires { self.old.at + 2 ≤ length self.old.out.now }
        ensures put { Put self.old.out.now self.old.at (‘V’ ∷ letter ∷ []) self.new.at self.new.out.now }
        ensures same_reference { self.new.out.ghost_name ≡ self.old.out.ghost_name }
    {
        self.put_pair(b'V', letter);
    }

    // What stands before the elements of an array: `Va` count.
    pub fn put_array(&mut self, n: u16)
        requires { Takes self.old.out.now self.old.at (array_front n) }
        ensures put { Put self.old.out.now self.old.at (array_front n) self.new.at self.new.out.now }
        ensures same_reference { self.new.out.ghost_name ≡ self.old.out.ghost_name }
    {
        let mut w = Writer {
            out: &mut *self.out,
            at: self.at,
        };
        w.put_mark(b'a');
        w.put_le(2, n as u64);
        self.at = w.at;
    }

    // What stands before the members of a struct: `Vu` identity, member count.
    pub fn put_struct(&mut self, i: u16, n: u16)
        requires { Takes self.old.out.now self.old.at (struct_front i n) }
        ensures put { Put self.old.out.now self.old.at (struct_front i n) self.new.at self.new.out.now }
        ensures same_reference { self.new.out.ghost_name ≡ self.old.out.ghost_name }
    {
        let mut w = Writer {
            out: &mut *self.out,
            at: self.at,
        };
        w.put_mark(b'u');
        w.put_le(2, i as u64);
        w.put_le(2, n as u64);
        self.at = w.at;
    }

    // A literal's record: a mark, the kind and the payload, as wide as the kind says.
    pub fn put_literal(&mut self, kind: u8, payload: u64)
        requires { self.old.at + (3 + width_of kind) ≤ length self.old.out.now }
        ensures put { Put self.old.out.now self.old.at (literal_of kind payload) self.new.at self.new.out.now }
        ensures same_reference { self.new.out.ghost_name ≡ self.old.out.ghost_name }
    {
        let mut w = Writer {
            out: &mut *self.out,
            at: self.at,
        };
        w.put_three(b'V', b's', kind);
        w.put_le(width(kind), payload);
        self.at = w.at;
    }

    // n records of one kind and payload.
    pub fn put_literals(&mut self, n: u8, k: u8, bits: u64)
        requires { Takes self.old.out.now self.old.at (times n (literal_of k bits)) }
        ensures put { Put self.old.out.now self.old.at (times n (literal_of k bits)) self.new.at self.new.out.now }
        ensures same_reference { self.new.out.ghost_name ≡ self.old.out.ghost_name }
    {
        let mut w = Writer {
            out: &mut *self.out,
            at: self.at,
        };
        for _ in 0..n {
            w.put_literal(k, bits);
        }
        self.at = w.at;
    }
}

// ---- a literal's record: a mark, the kind and the payload, as wide as the kind says

// How wide a payload of that kind is.
pub fn width(kind: u8) -> usize
    ensures { (result ≡ width_of kind) × Width result × (result ≤ 8) }
{
    let scalar = Scalar { kind };
    scalar.width()
}

// The length of the record. Every length goes through this.
pub fn literal_len(kind: u8) -> usize
    ensures { Sized kind lit_len most_lit result }
{
    3 + width(kind)
}

// The payload of the literal whose record begins at i.
pub fn payload_at(src: &[u8], i: usize) -> u64
    requires { i + (3 + width_of (get_or src.now (i + 2) 0)) ≤ length src.now }
    ensures { result ≡ number_at src.now (i + 3) (width_of (get_or src.now (i + 2) 0)) }
{
    let j = src[i + 2];
    number(src, i + 3, width(j))
}
