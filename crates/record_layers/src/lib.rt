// The layers of a lent record as masks: which layers each one refers to, and which it reaches.
#![tactic(auto)]

ghost use Rattle.std.specs.Prelude.{◌≡◌, ◌≤◌, eqb, get_or, drop};
ghost use Rattle.vps_definition.specs.OutputLayerSets.{flagged, mask_of};
ghost use Rattle.vps_definition.specs.Layout.{firsts, flags_in, entry_length, flags_from};
ghost use Rattle.record_layers.specs.Turns.{Stored};

use record_parts::Record;

// A layer's entry, which the numbers begin with, and the layer's number.
#[derive(Clone, Copy)]
struct Entry<'a> {
    numbers: &'a [u32],
    i: usize,
    ghost few_layers: { i ≤ 64 },
}

impl Entry<'_> {
    // The layers below whose flag is 1, the first of each of i pairs.
    // As it is (2): `vps_layers::flags` takes a step for each flag, which may be refused; by it, this loop over a record's numbers would have a refusal that never comes.
    // As it is (3): `step_by(2)` and `chunks(2)` end where the lent record does; that the flags behind its end, which are 0, add no layer, would want a law of its own.
    fn flags_mask(&self) -> u64
        ensures { result ≡ mask_of 64 (flagged (firsts self.now.i (drop 3 self.now.numbers.now))) }
    {
        let pairs = lists::behind(self.numbers, 3);
        let mut mask = 0;
        for j in 0..self.i {
            let v = record_parts::number_at(pairs, 2 * j);
            mask = layer_sets::with_flag(mask, v, j);
        }
        mask
    }

    // Whether the layer depends on others.
    fn is_dependent(&self) -> bool
        ensures { result ≡ eqb (get_or self.now.numbers.now 1 0) 0 }
    {
        record_parts::number_at(self.numbers, 1) == 0
    }

    // The layers that it refers to directly.
    fn direct_mask(&self) -> u64
        ensures { result ≡ mask_of 64 (flagged (flags_in self.now.i self.now.numbers.now)) }
    {
        if self.is_dependent() {
            return self.flags_mask();
        }
        0
    }

    // How many numbers it has.
    fn length(&self) -> usize
        ensures { result ≡ entry_length self.now.i self.now.numbers.now }
    {
        if self.is_dependent() {
            return 3 + 2 * self.i;
        }
        3
    }
}

// Stores the layers that each of n layers reaches, by the Layers section of the record: as many masks as there are places for,
// 64 at the most. What stands behind them stays.
// As it is (6): n may be less or more than the places lent, and the promise is for each; a slice of n masks would leave the cut, and what stays behind it, to callers.
pub fn layer_masks(rec: &[u32], closed: &mut [u64], n: usize)
    ensures { Stored (flags_from n 0 (drop 9 rec.now)) n closed.old closed.new }
{
    let most = n.min(Record::MOST_LAYERS.min(closed.len()));
    let mut numbers = lists::behind(rec, Record::GENERAL);
    for i in 0..most {
        let entry = Entry { numbers, i };
        layer_sets::close(closed, entry.direct_mask(), i);
        numbers = lists::behind(numbers, entry.length());
    }
}
