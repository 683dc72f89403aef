//! The caches on given and on drawn fetches.
use crate::same::same;
use mx_icache::{FetchCache, LineCache, PlainCache, Set};

/// Nine lines of one set, and then words of them again, of which only the third line and its neighbour are held.
static FETCHES: [(u32, bool); 15] = [
    (0, false),
    (64, false),
    (128, false),
    (192, false),
    (256, false),
    (320, false),
    (384, false),
    (448, false),
    (512, false),
    (0, false),
    (128, true),
    (129, true),
    (130, false),
    (64, false),
    (128, false),
];

/// The number of the first of them that a cache answers otherwise.
fn first_wrong<C: FetchCache>(mut cache: C) -> Option<usize> {
    for (number, (address, held)) in FETCHES.iter().enumerate() {
        if cache.fetch(*address) != *held {
            return Some(number);
        }
    }
    None
}

#[test]
fn the_oldest_line_is_replaced(rt: HostRuntime) {
    same(&rt, &first_wrong(PlainCache::new()), &None);
    same(&rt, &first_wrong(LineCache::new()), &None);
}

/// The first set behind nine lines of it: the tags, the masks, and the way that the next line goes to.
static WAYS: ([u32; 8], [u16; 8], u8) = ([32, 4, 8, 12, 16, 20, 24, 28], [3; 8], 1);

/// The fields of a set, which are these and no other.
fn fields(set: &Set) -> ([u32; 8], [u16; 8], u8) {
    let Set { tags, masks, next } = *set;
    (tags, masks, next)
}

#[test]
fn lines_go_round_the_ways(rt: HostRuntime) {
    let mut cache = LineCache::new();
    for i in 0..9u32 {
        cache.fetch(64 * i);
    }
    let LineCache { sets } = &cache;
    same(&rt, &fields(&sets[0]), &WAYS);
}

/// The number of the first of so many drawn fetches that the two caches answer otherwise.
fn first_difference(count: u32) -> Option<u32> {
    let mut lists = PlainCache::new();
    let mut arrays = LineCache::new();
    let mut drawn = 1u32;
    for number in 0..count {
        drawn = drawn.wrapping_mul(1_103_515_245).wrapping_add(12_345);
        let address = (drawn >> 16) % 800;
        if arrays.fetch(address) != lists.fetch(address) {
            return Some(number);
        }
    }
    None
}

#[test]
fn both_caches_answer_alike(rt: HostRuntime) {
    same(&rt, &first_difference(4000), &None);
}
