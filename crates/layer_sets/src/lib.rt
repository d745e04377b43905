// Sets of layers as 64-bit masks, one bit for each layer: single layers, unions, and what layers reach.
#![tactic(auto)]

ghost use Rattle.std.specs.Prelude.{◌≡◌, ◌||◌, set, length, ltb, leb, eqb};
ghost use Rattle.vps_definition.specs.OutputLayerSets.{count_below, with_reached, flagged, mask_of};
ghost use Rattle.layer_sets.specs.Masks.{bit_of, bit_at};
ghost use Rattle.layer_sets.specs.Flags.{with_flag};

use record_parts::Record;

// Whether layer j is in the mask; no mask has a layer from 64 on.
// As it is (5): a mask is one number with nothing beside it; were it a struct, lent masks would be a list of structs, and the laws of closed masks would go by a map to their numbers.
pub fn has(mask: u64, j: usize) -> bool
    ensures { result ≡ bit_of mask j }
{
    j < Record::MOST_LAYERS && (mask >> j) % 2 == 1
}

// The mask with layer j, where it is below 64.
fn with(mask: u64, j: usize) -> u64
    ensures { result ≡ mask_of 64 (λ k. bit_of mask k || eqb j k) }
{
    if j < Record::MOST_LAYERS {
        return mask | (1 << j);
    }
    mask
}

// Layer i alone, where it is below 64.
pub fn only(i: usize) -> u64
    ensures { result ≡ mask_of 64 (eqb i) }
{
    with(0, i)
}

// Layers 0 to i.
pub fn up_to(i: usize) -> u64
    ensures { result ≡ mask_of 64 (λ j. leb j i) }
{
    u64::MAX >> (Record::MOST_LAYERS - 1).saturating_sub(i)
}

// A mask with layer j where its flag is 1.
pub fn with_flag(mask: u64, v: u32, j: usize) -> u64
    ensures { result ≡ with_flag mask v j }
{
    if v == 1 {
        return with(mask, j);
    }
    mask
}

// The layers whose flag is 1.
pub fn of_flags(flags: &[u32]) -> u64
    ensures { result ≡ mask_of 64 (flagged flags.now) }
{
    let mut mask = 0;
    for (j, v) in flags.iter().enumerate() {
        mask = with_flag(mask, *v, j);
    }
    mask
}

// The layers of either mask.
fn union(a: u64, b: u64) -> u64
    ensures { result ≡ mask_of 64 (λ k. bit_of a k || bit_of b k) }
{
    a | b
}

// How many layers the mask has.
pub fn count(mask: u64) -> u32
    ensures { result ≡ count_below 64 (bit_of mask) }
{
    mask.count_ones()
}

// Whether the mask has more than one layer.
pub fn is_multi(mask: u64) -> bool
    ensures { result ≡ ltb 1 (count_below 64 (bit_of mask)) }
{
    count(mask) > 1
}

// The layers of the mask, and what they reach by the closed masks; a layer without one reaches nothing.
pub fn cover(closed: &[u64], mask: u64) -> u64
    ensures { result ≡ mask_of 64 (with_reached (length closed.now) (bit_at closed.now) (bit_of mask)) }
{
    let mut all = mask;
    for (k, reached) in closed.iter().enumerate() {
        if has(mask, k) {
            all = union(all, *reached);
        }
    }
    all
}

// Stores the closed mask of layer i, which refers directly to the layers of `direct`, where there is such a place.
// As it is (2): `lists::store` would test the place once more, behind a slice of the masks before it.
// As it is (6): i is a layer's number: the place of its own mask, and how many masks stand before it.
pub fn close(closed: &mut [u64], direct: u64, i: usize)
    ensures { closed.new ≡ set closed.old i (mask_of 64 (with_reached i (bit_at closed.old) (bit_of direct))) }
{
    if i < closed.len() {
        closed[i] = cover(&closed[..i], direct);
    }
}
