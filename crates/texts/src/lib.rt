// Text put into a lent slice from a place on: as much as there is room for, and the place behind it.
#![tactic(auto)]

ghost use Rattle.std.specs.Prelude.{◌≡◌, [], ◌∷◌, take};
ghost use Rattle.texts.specs.Adds.{Adds};

use lists::front;

// A lent slice, and the place behind the text that stands in it so far.
// As it is (6): `so_far` gives the bytes before the place back, so the slice stays whole: a rest alone would have let go of them.
#[derive(Drop)]
pub struct Text<'a> {
    pub bytes: &'a mut [u8],
    pub place: usize,
}

impl<'a> Text<'a> {
    // Text that goes on from a place; past the end of the slice nothing is stored.
    pub fn at(bytes: &'a mut [u8], place: usize) -> Text<'a>
        ensures same_reference { result.bytes.ghost_name ≡ bytes.entry.ghost_name }
        ensures bytes { result.bytes.now ≡ bytes.old }
        ensures place { result.place ≡ place }
    {
        Text { bytes, place }
    }

    // The bytes before the place.
    pub fn so_far(&self) -> &[u8]
        ensures { result.now ≡ take self.now.place self.now.bytes.now }
    {
        front(self.bytes, self.place)
    }

    // A byte behind what stands there, where there is room for one.
    fn put_byte(&mut self, byte: u8)
        ensures { Adds (byte ∷ []) self.old self.new }
    {
        let room = self.bytes.len().saturating_sub(self.place);
        if room > 0 {
            self.bytes[self.place] = byte;
            self.place += 1;
        }
    }

    // Bytes behind what stands there, as many as there is room for.
    // As it is (4): `fmt::Write` promises what was written where it answers `Ok` alone; what is put here is cut where there is no room, and never refused.
    // As it is (4): `copy_from_slice` asks the C library for `memmove`, since the compiler does not see that the slices lie apart.
    pub fn put(&mut self, bytes: &[u8])
        ensures { Adds bytes.now self.old self.new }
    {
        for byte in bytes {
            self.put_byte(*byte);
        }
    }
}
